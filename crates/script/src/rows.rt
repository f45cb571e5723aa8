// The answers of many calls at once. An answer is a row of 64 bytes, its eight numbers and 56 bytes of which so many as the line says were lent. Printed
// are how many there are; how many are the first, how many the next that is different, and so on; how many are different; and the sum over all.
ghost use Rattle.std.specs.Prelude.{◌≡◌, ◌≤◌, ◌<◌, length};

use crate::entries::put;
use crate::say;

pub const ROWS: usize = 65536;

pub const ROW: usize = 64;

pub const ROOM: usize = 56;

pub const BYTE: u8 = 170;

// The answer at the front of a row.
pub fn put_answer(answer: &[u64; 8], row: &mut [u8]) {
    for (i, v) in answer.iter().enumerate() {
        put(row, i, (*v % 256) as u8);
    }
}

pub fn store(rows: &mut [u8; ROWS], k: usize, row: &[u8; ROW])
    requires { k < 1024 }
{
    rows[k * ROW..k * ROW + ROW].copy_from_slice(row);
}

fn same_row(rows: &[u8], j: usize, k: usize) -> bool
    requires { (j < 1024) × (k < 1024) × (length rows.now ≡ 65536) }
{
    check::same(&rows[j * ROW..j * ROW + ROW], &rows[k * ROW..k * ROW + ROW])
}

// How many rows, of those from start to end, are as row k.
fn equal(rows: &[u8], start: usize, end: usize, k: usize) -> usize
    requires { (end ≤ 1024) × (k < 1024) × (length rows.now ≡ 65536) }
{
    let mut n: usize = 0;
    for j in start..end {
        if same_row(rows, j, k) {
            n += 1;
        }
    }
    n
}

// How often each answer is given; answers how many are different.
fn tell(rows: &[u8], count: usize) -> usize
    requires { (count ≤ 1024) × (length rows.now ≡ 65536) }
{
    let mut different: usize = 0;
    for k in 0..count {
        if equal(rows, 0, k, k) == 0 {
            trial::label(b" ", equal(rows, k, count, k));
            different += 1;
        }
    }
    different
}

fn sum_of(rows: &[u8], count: usize)
    requires { (count ≤ 1024) × (length rows.now ≡ 65536) }
{
    say::sum_of(&rows[..count * ROW]);
}

pub fn tell_all(word: &[u8], rows: &[u8; ROWS], count: usize)
    requires { count ≤ 1024 }
{
    trial::text(word);
    trial::label(b" ", count);
    trial::text(b" |");
    trial::label(b" | ", tell(rows, count));
    trial::text(b" | ");
    sum_of(rows, count);
}
