// Two lists joined: the bytes up to an offset and those from there on.
//
//   join_lists i n          apart at offset i, to n bytes
//   join_splits i b m n     of lists of at most 56 bytes the first m splits with base b, at most 1,024, each joined to n bytes (entries.rt and
//                           rows.rt of script)
ghost use Rattle.std.specs.Prelude.{◌+◌, ◌≤◌, ◌<◌, length};

use purlquartz::purlquartz_join_lists;
use script::entries::copy_split;
use script::rows::{BYTE, ROOM, ROW, ROWS, put_answer, store, tell_all};
use script::{BYTES, free_bytes, room, say, size};

fn join_lists_to(cells: &[u16], first: &[u8], second: &[u8], out: &mut [u8]) {
    let mut answer = [0u64; 8];
    purlquartz_join_lists(cells, first, second, out, &mut answer);
    say::answer(b"join_lists", &answer);
    say::numbers(out);
}

fn join_lists(args: &[u32], cells: &[u16], bytes: &[u8]) {
    let mut out = free_bytes();
    let i = room(args, 0, bytes.len());
    let n = room(args, 1, BYTES);
    join_lists_to(cells, &bytes[..i], &bytes[i..], &mut out[..n]);
}

fn join_row(cells: &[u16], first: &[u8], second: &[u8], n: usize, row: &mut [u8])
    requires { n + 8 ≤ length row.old }
{
    let mut answer = [0u64; 8];
    purlquartz_join_lists(cells, first, second, &mut row[8..n + 8], &mut answer);
    put_answer(&answer, row);
}

// The answer for split k.
fn split(cells: &[u16], first: &[u8], second: &[u8], base: usize, k: usize, n: usize) -> [u8; ROW]
    requires { (0 < base) × (n ≤ 56) }
{
    let mut ours = [0u8; ROOM];
    let mut theirs = [0u8; ROOM];
    let i = copy_split(first, 0, base, k, &mut ours).min(ROOM);
    let j = copy_split(second, 1, base, k, &mut theirs).min(ROOM);
    let mut row = [BYTE; ROW];
    join_row(cells, &ours[..i], &theirs[..j], n, &mut row);
    row
}

// The answers for the first count splits.
fn answers(
    cells: &[u16],
    first: &[u8],
    second: &[u8],
    base: usize,
    count: usize,
    n: usize,
    rows: &mut [u8; ROWS],
)
    requires { (0 < base) × (count ≤ 1024) × (n ≤ 56) }
{
    for k in 0..count {
        store(rows, k, &split(cells, first, second, base, k, n));
    }
}

// The base that a line says, at least 1.
fn base_of(args: &[u32]) -> usize
    ensures { 0 < result }
{
    size(args, 1).max(1)
}

fn join_splits(args: &[u32], cells: &[u16], bytes: &[u8]) {
    let i = room(args, 0, bytes.len());
    let base = base_of(args);
    let count = room(args, 2, 1024);
    let n = room(args, 3, ROOM);
    let mut rows = [BYTE; ROWS];
    answers(cells, &bytes[..i], &bytes[i..], base, count, n, &mut rows);
    tell_all(b"join_splits", &rows, count);
}

// Answers whether the word is one of the two calls.
pub fn in_joins(word: &[u8], args: &[u32], cells: &[u16], bytes: &[u8]) -> bool {
    match word {
        b"join_lists" => join_lists(args, cells, bytes),
        b"join_splits" => join_splits(args, cells, bytes),
        _ => return false,
    }
    true
}
