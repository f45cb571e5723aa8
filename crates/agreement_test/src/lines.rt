// The lines of 'Two small books' that are not marked to be proved; those of lists are proved all the same, in `coverage`.
use crate::judged::state_of;
use finder::Found;
use machine::Ending;

fn ending(e: Ending) {
    match e {
        Ending::Deep(_) => trial::text(b" deep"),
        Ending::Spinning(_) => trial::text(b" spinning"),
        _ => trial::text(b" neither"),
    }
}

// The empty sentence with lookahead 0.
fn empty_run(cells: &[u16]) {
    let mut stack = [0u16; 1024];
    trial::text(b"the empty run is");
    if let Ok(e) = machine::run(cells, b"", 0, &mut stack) {
        ending(e);
    }
    trial::text(b"\n");
}

fn pair(cells: &[u16], s: u16, z: u16) {
    let mut work = [0u16; 32];
    let mut buffer = [0u8; 1000];
    trial::label(b"pair ", s as usize);
    trial::label(b" ", z as usize);
    match finder::find(cells, s, z, &mut work, &mut buffer) {
        Ok(Found::Sentence(n)) => trial::label(b" has a sentence of length ", n),
        _ => trial::text(b" has none"),
    }
    trial::text(b"\n");
}

fn spinning() {
    let mut cells = [0u16; 13];
    let _ = book::read(
        b"\x01\x01\x01\x02\x02\x00\x00\x00\x01\x03\x05\x02\x00",
        &mut cells,
    );
    empty_run(&cells);
    pair(&cells, 1, 0);
}

fn deep() {
    let mut cells = [0u16; 9];
    let _ = book::read(b"\x01\x01\x01\x01\x01\x00\x00\x03\x01", &mut cells);
    empty_run(&cells);
}

// What is told of a judgement that is neither.
const NO_STATE: usize = 65535;

fn judged(name: &[u8], cells: &[u16], list: &[u8]) {
    trial::text(name);
    match state_of(cells, list) {
        Ok(None) => trial::text(b" complete"),
        Ok(Some(s)) => trial::label(b" uncovered, state ", s),
        Err(_) => trial::label(b" uncovered, state ", NO_STATE),
    }
    trial::text(b"\n");
}

// Bracket's list with article number 0 in each entry: whole; without its third entry and with count 5. Then with other article numbers.
pub fn lists(bracket: &[u16]) {
    judged(
        b"the list is",
        bracket,
        b"\x06\x00\x00\x00\x01\x01\x01\x00\x01\x02\x00\x00\x01\x01\x03\x00\x02\x02\x01\x00\x00\x03\x02\x01\x03\x01\x00",
    );
    judged(
        b"the list without its third entry is",
        bracket,
        b"\x05\x00\x00\x00\x01\x01\x01\x00\x01\x01\x03\x00\x02\x02\x01\x00\x00\x03\x02\x01\x03\x01\x00",
    );
    judged(
        b"the list with other article numbers is",
        bracket,
        b"\x06\x00\x00\xff\xff\x7f\x01\x01\x01\x80\x80\x04\x01\x02\x00\xff\xff\x03\x01\x01\x03\x80\x01\x02\x02\x01\x00\x7f\x03\x02\x01\x03\x01\x01",
    );
    judged(
        b"the list with other article numbers, without its third entry, is",
        bracket,
        b"\x05\x00\x00\xff\xff\x7f\x01\x01\x01\x80\x80\x04\x01\x01\x03\x80\x01\x02\x02\x01\x00\x7f\x03\x02\x01\x03\x01\x01",
    );
}

// The map, in the first n work cells.
fn map_in(cells: &[u16], work: &mut [u16], n: usize) {
    if work.len() < n {
        return;
    }
    let mut to = [0u16; 256];
    trial::label(b", in ", n);
    trial::text(b" work cells");
    match maps::map(cells, &mut work[..n], &mut to) {
        Ok(m) => trial::label(b" a map of ", m),
        Err(r) => trial::refusal(r),
    }
}

// The map of a book, in as many work cells as are needed for 8 and for 9 nonterminals, and in one fewer.
fn maps(name: &[u8], cells: &[u16]) {
    let mut work = [0u16; 34816];
    trial::text(name);
    map_in(cells, &mut work, 32767);
    map_in(cells, &mut work, 32768);
    map_in(cells, &mut work, 34815);
    map_in(cells, &mut work, 34816);
    trial::text(b"\n");
}

// A book of 8 terminals and 32 states, in which state 0 shifts terminal 7 to state 31.
fn eight() {
    let mut cells = [0u16; 517];
    cells[0] = 1;
    cells[1] = 8;
    cells[2] = 8;
    cells[3] = 32;
    cells[12] = 64;
    maps(b"8 nonterminals", &cells);
}

fn nine() {
    let mut cells = [0u16; 549];
    cells[0] = 1;
    cells[1] = 8;
    cells[2] = 9;
    cells[3] = 32;
    cells[12] = 64;
    maps(b"9 nonterminals", &cells);
}

pub fn books() {
    spinning();
    deep();
    eight();
    nine();
}
