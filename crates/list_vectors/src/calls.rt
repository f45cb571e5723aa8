// The calls of the library for C on lists. Each prints its name, its answer, and what each lent part holds then. The last numbers of a line say how
// much is lent; the memory holds the same value everywhere before the call.
//
//   check_list          the bytes as a list
//   entry k
//   next_entry i k      from offset i on, with k left
//   judge n m           n work cells and m stack cells
//   sort_list n         to n bytes
//   sort_orders, judge_orders   see orders.rt
//   join_lists, join_splits     see joins.rt
use crate::joins::in_joins;
use crate::orders::in_orders;
use purlquartz::{
    purlquartz_check_list, purlquartz_entry, purlquartz_judge, purlquartz_next_entry,
    purlquartz_sort_list,
};
use script::{BYTES, CELLS, WORK, free_bytes, free_cells, free_work, room, say, size};

fn check_list(cells: &[u16], list: &[u8]) {
    let mut answer = [0u64; 8];
    purlquartz_check_list(cells, list, &mut answer);
    say::answer(b"check_list", &answer);
}

fn entry(args: &[u32], cells: &[u16], list: &[u8]) {
    let mut answer = [0u64; 8];
    purlquartz_entry(cells, list, size(args, 0), &mut answer);
    say::answer(b"entry", &answer);
}

fn next_entry(args: &[u32], list: &[u8]) {
    let mut answer = [0u64; 8];
    purlquartz_next_entry(list, size(args, 0), size(args, 1), &mut answer);
    say::answer(b"next_entry", &answer);
}

fn judge_in(cells: &[u16], list: &[u8], work: &mut [u16], stack: &mut [u16]) {
    let mut answer = [0u64; 8];
    purlquartz_judge(cells, list, work, stack, &mut answer);
    say::answer(b"judge", &answer);
    say::numbers(work);
    say::numbers(stack);
}

fn judge(args: &[u32], cells: &[u16], list: &[u8]) {
    let mut work = free_work();
    let mut stack = free_cells();
    let n = room(args, 0, WORK);
    let m = room(args, 1, CELLS);
    judge_in(cells, list, &mut work[..n], &mut stack[..m]);
}

fn sort_list_to(cells: &[u16], list: &[u8], out: &mut [u8]) {
    let mut answer = [0u64; 8];
    purlquartz_sort_list(cells, list, out, &mut answer);
    say::answer(b"sort_list", &answer);
    say::numbers(out);
}

fn sort_list(args: &[u32], cells: &[u16], list: &[u8]) {
    let mut out = free_bytes();
    let n = room(args, 0, BYTES);
    sort_list_to(cells, list, &mut out[..n]);
}

fn on_list(word: &[u8], args: &[u32], cells: &[u16], list: &[u8]) -> bool {
    match word {
        b"check_list" => check_list(cells, list),
        b"entry" => entry(args, cells, list),
        b"next_entry" => next_entry(args, list),
        b"judge" => judge(args, cells, list),
        b"sort_list" => sort_list(args, cells, list),
        _ => return false,
    }
    true
}

pub fn call(word: &[u8], args: &[u32], cells: &[u16], bytes: &[u8]) {
    if on_list(word, args, cells, bytes) {
        trial::text(b"\n");
    }
    if in_orders(word, args, cells, bytes) {
        trial::text(b"\n");
    }
    if in_joins(word, args, cells, bytes) {
        trial::text(b"\n");
    }
}
