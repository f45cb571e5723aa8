// The bytes as a list of at most 56 bytes in many orders (entries.rt and rows.rt of script).
//
//   sort_orders m k     the first m orders, at most 1,024, each sorted to k bytes
//   judge_orders m      .. each judged
ghost use Rattle.std.specs.Prelude.{◌+◌, ◌≤◌, length};

use purlquartz::{purlquartz_judge, purlquartz_sort_list};
use script::entries::arrange;
use script::room;
use script::rows::{BYTE, ROOM, ROW, ROWS, put_answer, store, tell_all};

fn sort_row(cells: &[u16], list: &[u8], n: usize, row: &mut [u8])
    requires { n + 8 ≤ length row.old }
{
    let mut answer = [0u64; 8];
    purlquartz_sort_list(cells, list, &mut row[8..n + 8], &mut answer);
    put_answer(&answer, row);
}

fn judge_row(cells: &[u16], list: &[u8], row: &mut [u8]) {
    let mut work = [0u16; 65536];
    let mut stack = [0u16; 1024];
    let mut answer = [0u64; 8];
    purlquartz_judge(cells, list, &mut work, &mut stack, &mut answer);
    put_answer(&answer, row);
}

fn row_of(word: &[u8], cells: &[u16], list: &[u8], n: usize) -> [u8; ROW]
    requires { n ≤ 56 }
{
    let mut row = [BYTE; ROW];
    if check::same(word, b"sort_orders") {
        sort_row(cells, list, n, &mut row);
    } else {
        judge_row(cells, list, &mut row);
    }
    row
}

// The answer for order k.
fn order(word: &[u8], cells: &[u16], list: &[u8], k: usize, n: usize) -> [u8; ROW]
    requires { n ≤ 56 }
{
    let mut arranged = [0u8; ROOM];
    arrange(list, k, &mut arranged);
    row_of(word, cells, &arranged[..list.len().min(ROOM)], n)
}

// The answers for the first count orders.
fn answers(word: &[u8], cells: &[u16], list: &[u8], count: usize, n: usize, rows: &mut [u8; ROWS])
    requires { (count ≤ 1024) × (n ≤ 56) }
{
    for k in 0..count {
        store(rows, k, &order(word, cells, list, k, n));
    }
}

fn is_call(word: &[u8]) -> bool {
    check::same(word, b"sort_orders") || check::same(word, b"judge_orders")
}

// Answers whether the word is one of the two calls.
pub fn in_orders(word: &[u8], args: &[u32], cells: &[u16], list: &[u8]) -> bool {
    if !is_call(word) {
        return false;
    }
    let count = room(args, 0, 1024);
    let n = room(args, 1, ROOM);
    let mut rows = [BYTE; ROWS];
    answers(word, cells, list, count, n, &mut rows);
    tell_all(word, &rows, count);
    true
}
