// For each state the entry that is taken, of those that stand at its places in two lists, where 0 is none.
ghost use Rattle.std.specs.Prelude.{◌≡◌, ◌+◌, ◌≤◌, length};
ghost use Rattle.std.proofs.lemmas.List.Edits.{sets};
ghost use Rattle.items.specs.SpanLaws.{span_at};
ghost use Rattle.pieces.specs.Pieces.{symbols_at, is_shorter, piece_at, entry_count, pieces_to, Measured};

use lists::entry_at;
use number::Cursor;
use sorting::put_entry;

// How many symbols the entry at a place has.
fn symbols_at(list: &[u8], place: usize) -> u32
    ensures { result ≡ symbols_at list.now place }
{
    match (Cursor { at: place }).read(list) {
        Err(_) => 0,
        Ok((n, _)) => n,
    }
}

// Whether the second list's entry is taken: it has fewer symbols, or the first list has none.
fn second_is_shorter(first: &[u8], p: usize, second: &[u8], q: usize) -> bool
    ensures { result ≡ is_shorter first.now p second.now q }
{
    if q == 0 {
        return false;
    }
    if p == 0 {
        return true;
    }
    symbols_at(second, q) < symbols_at(first, p)
}

// How many bytes the entry at a place has.
fn entry_size(list: &[u8], place: usize) -> usize
    ensures { result ≡ length (span_at list.now place) }
{
    if place == 0 {
        return 0;
    }
    match entry_at(list, place, 32) {
        Err(_) => 0,
        Ok((_, next)) => next.at - place,
    }
}

fn piece_size(first: &[u8], p: usize, second: &[u8], q: usize) -> usize
    ensures { result ≡ length (piece_at first.now p second.now q) }
{
    if second_is_shorter(first, p, second, q) {
        return entry_size(second, q);
    }
    entry_size(first, p)
}

// Writes the entry that is taken at an offset; answers the offset after it.
fn put_piece(first: &[u8], p: usize, second: &[u8], q: usize, out: &mut [u8], at: usize) -> usize
    requires { at + length (piece_at first.now p second.now q) ≤ length out.old }
    ensures value { result ≡ at + length (piece_at first.now p second.now q) }
    ensures out_after { out.new ≡ sets out.old at (piece_at first.now p second.now q) }
{
    if second_is_shorter(first, p, second, q) {
        return put_entry(second, q, out, at);
    }
    put_entry(first, p, out, at)
}

// How many entries are taken of those at two places.
fn entry_count(p: usize, q: usize) -> u16
    ensures { result ≡ entry_count p q }
{
    if p != 0 {
        return 1;
    }
    if q != 0 {
        return 1;
    }
    0
}

// What is left of a room, and how many entries of the first states took the rest; or none, where they have more bytes than the room.
pub fn measure(
    first: &[u8],
    places: &[usize; 128],
    second: &[u8],
    others: &[usize; 128],
    states: usize,
    room: usize,
) -> Option<(usize, u16)>
    requires { states ≤ 128 }
    ensures { Measured first.now places.now second.now others.now states room result }
{
    let mut left = room;
    let mut count: u16 = 0;
    for s in 0..states {
        let p = places[s];
        let q = others[s];
        let n = piece_size(first, p, second, q);
        if left < n {
            return None;
        }
        left -= n;
        count += entry_count(p, q);
    }
    Some((left, count))
}

// Writes the entries of the first states one after another from an offset on; answers the offset after them.
pub fn put_pieces(
    first: &[u8],
    places: &[usize; 128],
    second: &[u8],
    others: &[usize; 128],
    states: usize,
    out: &mut [u8],
    start: usize,
) -> usize
    requires states_bound { states ≤ 128 }
    requires states_in_bounds { start + length (pieces_to first.now places.now second.now others.now states) ≤ length out.old }
    ensures value { result ≡ start + length (pieces_to first.now places.now second.now others.now states) }
    ensures out_after { out.new ≡ sets out.old start (pieces_to first.now places.now second.now others.now states) }
{
    let mut at = start;
    for s in 0..states {
        at = put_piece(first, places[s], second, others[s], out, at);
    }
    at
}
