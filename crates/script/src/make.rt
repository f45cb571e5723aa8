// What the calls are given: a book in cells, and bytes, which are a book's, a sentence or a list.
//
//   book v ..               the cells of a book
//   fill i d n v e          n cells from i on, each d after the last: v, v + e, ..
//   with i v j w ..         the book that was given, with v in cell i, w in cell j
//   first n                 its first n cells
//   bytes v ..              bytes, in hexadecimal
//   encoded                 the bytes of the cells, each number in the fewest
//   cut n                   the first n bytes, zeros where there are fewer
ghost use Rattle.std.specs.Prelude.{◌≤◌, ◌<◌};

use crate::lent::{BYTES, CELLS};
use crate::{Lengths, numbers};

// Stores a cell; answers how many cells there are then.
fn put(cells: &mut [u16; CELLS], count: usize, at: usize, v: u16) -> usize {
    if CELLS <= at {
        return count;
    }
    cells[at] = v;
    count.max(at + 1)
}

fn cells_of(args: &[u32], cells: &mut [u16; CELLS]) -> usize {
    let mut count: usize = 0;
    for i in 0..args.len() {
        count = put(cells, count, i, numbers::cell(args, i));
    }
    count
}

fn change(args: &[u32], cells: &mut [u16; CELLS], given: usize) -> usize {
    let mut count = given;
    for i in 0..args.len() / 2 {
        count = put(
            cells,
            count,
            numbers::size(args, 2 * i),
            numbers::cell(args, 2 * i + 1),
        );
    }
    count
}

fn sum(v: u16, e: u16) -> u16 {
    ((v as u32 + e as u32) % 65536) as u16
}

fn fill(args: &[u32], cells: &mut [u16; CELLS], given: usize) -> usize {
    let step = numbers::size(args, 1);
    let times = numbers::size(args, 2);
    let by = numbers::cell(args, 4);
    let mut at = numbers::size(args, 0);
    let mut v = numbers::cell(args, 3);
    let mut count = given;
    for _ in 0..times {
        count = put(cells, count, at % 65536, v);
        at = at % 65536 + step;
        v = sum(v, by);
    }
    count
}

fn bytes_of(args: &[u32], bytes: &mut [u8; BYTES]) -> usize {
    let n = args.len().min(BYTES);
    for i in 0..n {
        bytes[i] = numbers::byte(args, i);
    }
    n
}

// The first n cells.
fn encode(cells: &[u16], n: usize, bytes: &mut [u8]) -> usize {
    let mut at: usize = 0;
    for cell in &cells[..n.min(cells.len())] {
        let v = u32::from(*cell);
        if bytes.len() - at < number::width(v) {
            return at;
        }
        at = number::write(v, bytes, at);
    }
    at
}

// The same book with other bytes.
fn with_bytes(l: Lengths, bytes: usize) -> Lengths {
    Lengths { bytes, ..l }
}

fn make_bytes(
    word: &[u8],
    args: &[u32],
    cells: &[u16; CELLS],
    bytes: &mut [u8; BYTES],
    l: Lengths,
) -> Lengths {
    if check::same(word, b"bytes") {
        *bytes = [0; BYTES];
        return with_bytes(l, bytes_of(args, bytes));
    }
    if check::same(word, b"cut") {
        return with_bytes(l, numbers::size(args, 0));
    }
    if check::same(word, b"encoded") {
        *bytes = [0; BYTES];
        return with_bytes(l, encode(cells, l.cells, bytes));
    }
    l
}

pub fn make(
    word: &[u8],
    args: &[u32],
    given: &mut [u16; CELLS],
    cells: &mut [u16; CELLS],
    bytes: &mut [u8; BYTES],
    l: Lengths,
) -> Lengths {
    if check::same(word, b"book") {
        *given = [0; CELLS];
        let n = cells_of(args, given);
        *cells = *given;
        return with_cells(l, n, n);
    }
    if check::same(word, b"fill") {
        let n = fill(args, given, l.given);
        *cells = *given;
        return with_cells(l, n, n);
    }
    if check::same(word, b"with") {
        *cells = *given;
        return with_cells(l, l.given, change(args, cells, l.given));
    }
    if check::same(word, b"first") {
        *cells = *given;
        return with_cells(l, l.given, numbers::size(args, 0));
    }
    make_bytes(word, args, cells, bytes, l)
}

// The same bytes with another book.
fn with_cells(l: Lengths, given: usize, cells: usize) -> Lengths {
    Lengths { given, cells, ..l }
}
