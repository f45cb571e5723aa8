// Keeps a reader over whole lists, and prints what it gives and how many remain, turn by turn.
#![tactic(auto)]

mod show;
mod turns;

// Bracket, which has four terminals.
const BRACKET: [u8; 39] = [
    1, 4, 1, 6, 2, 0, 1, 0, 3, 0, 4, 6, 0, 3, 0, 0, 3, 0, 4, 6, 0, 1, 0, 0, 0, 0, 0, 0, 12, 5, 0,
    0, 5, 4, 0, 5, 0, 0, 0,
];

// Lists that are accepted, with fewer entries than turns and with more.
fn accepted(cells: &[u16]) {
    turns::five(
        b"three entries",
        cells,
        b"\x03\x00\x00\x00\x01\x01\x03\x80\x01\x03\x02\x01\x03\x01\xff\xff\x7f",
    );
    turns::five(b"one empty sentence", cells, b"\x01\x00\x03\x7f");
    turns::five(b"no entry", cells, b"\x00");
    turns::five(
        b"six entries",
        cells,
        b"\x06\x00\x00\x00\x01\x01\x01\x00\x01\x02\x00\x00\x01\x01\x03\x00\x02\x02\x01\x00\x00\x03\x02\x01\x03\x01\x00",
    );
    turns::five(
        b"six article numbers",
        cells,
        b"\x06\x00\x00\x01\x01\x01\x01\xff\x7f\x01\x02\x00\x80\x80\x01\x01\x01\x03\xff\xff\x03\x02\x02\x01\x00\x80\x80\x04\x03\x02\x01\x03\x01\xff\xff\x7f",
    );
}

// Lists that are refused, whatever their first entries are.
fn refused(cells: &[u16]) {
    turns::five(b"count 129", cells, b"\x81\x01");
    turns::five(
        b"two of three entries",
        cells,
        b"\x03\x00\x00\x00\x01\x01\x03\x80\x01",
    );
    turns::five(b"lookahead 4", cells, b"\x02\x00\x00\x00\x00\x04\x00");
    turns::five(b"no article number", cells, b"\x01\x00\x03");
    turns::five(
        b"two bytes of an article number",
        cells,
        b"\x01\x00\x03\x80\x80",
    );
    turns::five(b"article number padded", cells, b"\x01\x00\x03\x80\x00");
    turns::five(
        b"three entries and one more byte",
        cells,
        b"\x03\x00\x00\x00\x01\x01\x03\x80\x01\x03\x02\x01\x03\x01\xff\xff\x7f\x00",
    );
}

fn main() {
    let mut cells = [0u16; 39];
    let _ = book::read(&BRACKET, &mut cells);
    accepted(&cells);
    refused(&cells);
    cells[0] = 3;
    turns::five(b"form 3", &cells, b"\x00");
}
