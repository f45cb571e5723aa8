// The calls of the library for C. Each prints its name, its answer, and what each lent part holds then. The last numbers of a line say how
// much is lent; the memory holds the same value everywhere before the call.
//
//   read n              bytes to n cells
//   check
//   write n             cells to n bytes
//   to_form_1 n         cells to n cells
//   to_form_2 n
//   run z n             the bytes with lookahead z, and n stack cells
//   find s z n m        one pair, n work cells and m bytes
//   find_break s z n m  the same, where its reduction breaks
//   map n m             n work cells and m cells
//   sets n m k          n work cells, m masks and k sizes
//   sentences n m k     n work cells, m cells and k bytes
//   break_sentences n m k
//   check_certificate   see certificates.rt
use crate::certificates::check_certificate;
use purlquartz::{
    purlquartz_break_sentences, purlquartz_check, purlquartz_find, purlquartz_find_break,
    purlquartz_map, purlquartz_read, purlquartz_run, purlquartz_sentences, purlquartz_sets,
    purlquartz_to_form_1, purlquartz_to_form_2, purlquartz_write,
};
use script::{
    BYTES, CELLS, MASKS, SENTENCE_BYTES, WORK, cell, free_bytes, free_cells, free_sentence_bytes,
    free_words, free_work, room, say,
};

fn read_to(bytes: &[u8], cells: &mut [u16]) {
    let mut answer = [0u64; 8];
    purlquartz_read(bytes, cells, &mut answer);
    say::answer(b"read", &answer);
    say::numbers(cells);
}

fn read(args: &[u32], bytes: &[u8]) {
    let mut cells = free_cells();
    let n = room(args, 0, CELLS);
    read_to(bytes, &mut cells[..n]);
}

fn check(cells: &[u16]) {
    let mut answer = [0u64; 8];
    purlquartz_check(cells, &mut answer);
    say::answer(b"check", &answer);
}

fn write_to(cells: &[u16], bytes: &mut [u8]) {
    let mut answer = [0u64; 8];
    purlquartz_write(cells, bytes, &mut answer);
    say::answer(b"write", &answer);
    say::numbers(bytes);
}

fn write(args: &[u32], cells: &[u16]) {
    let mut bytes = free_bytes();
    let n = room(args, 0, BYTES);
    write_to(cells, &mut bytes[..n]);
}

fn to_form_1_in(cells: &[u16], lent: &mut [u16]) {
    let mut answer = [0u64; 8];
    purlquartz_to_form_1(cells, lent, &mut answer);
    say::answer(b"to_form_1", &answer);
    say::numbers(lent);
}

fn to_form_1(args: &[u32], cells: &[u16]) {
    let mut lent = free_cells();
    let n = room(args, 0, CELLS);
    to_form_1_in(cells, &mut lent[..n]);
}

fn to_form_2_in(cells: &[u16], lent: &mut [u16]) {
    let mut answer = [0u64; 8];
    purlquartz_to_form_2(cells, lent, &mut answer);
    say::answer(b"to_form_2", &answer);
    say::numbers(lent);
}

fn to_form_2(args: &[u32], cells: &[u16]) {
    let mut lent = free_cells();
    let n = room(args, 0, CELLS);
    to_form_2_in(cells, &mut lent[..n]);
}

fn run_in(cells: &[u16], sentence: &[u8], lookahead: u16, stack: &mut [u16]) {
    let mut answer = [0u64; 8];
    purlquartz_run(cells, sentence, lookahead, stack, &mut answer);
    say::answer(b"run", &answer);
    say::numbers(stack);
}

fn run(args: &[u32], cells: &[u16], sentence: &[u8]) {
    let mut stack = free_cells();
    let n = room(args, 1, CELLS);
    run_in(cells, sentence, cell(args, 0), &mut stack[..n]);
}

// The call for one pair that has this name.
fn ask(
    word: &[u8],
    cells: &[u16],
    s: u16,
    z: u16,
    work: &mut [u16],
    buffer: &mut [u8],
    answer: &mut [u64; 8],
) {
    if check::same(word, b"find_break") {
        purlquartz_find_break(cells, s, z, work, buffer, answer);
    } else {
        purlquartz_find(cells, s, z, work, buffer, answer);
    }
}

fn find_in(word: &[u8], cells: &[u16], s: u16, z: u16, work: &mut [u16], buffer: &mut [u8]) {
    let mut answer = [0u64; 8];
    ask(word, cells, s, z, work, buffer, &mut answer);
    say::answer(word, &answer);
    say::numbers(work);
    say::numbers(buffer);
}

fn find(word: &[u8], args: &[u32], cells: &[u16]) {
    let mut work = free_work();
    let mut buffer = free_bytes();
    let s = cell(args, 0);
    let z = cell(args, 1);
    let n = room(args, 2, WORK);
    let m = room(args, 3, BYTES);
    find_in(word, cells, s, z, &mut work[..n], &mut buffer[..m]);
}

fn map_in(cells: &[u16], work: &mut [u16], map: &mut [u16]) {
    let mut answer = [0u64; 8];
    purlquartz_map(cells, work, map, &mut answer);
    say::answer(b"map", &answer);
    say::numbers(work);
    say::numbers(map);
}

fn map(args: &[u32], cells: &[u16]) {
    let mut work = free_work();
    let mut map = free_cells();
    let n = room(args, 0, WORK);
    let m = room(args, 1, CELLS);
    map_in(cells, &mut work[..n], &mut map[..m]);
}

fn sets_in(cells: &[u16], work: &mut [u16], masks: &mut [u32], sizes: &mut [u32]) {
    let mut answer = [0u64; 8];
    purlquartz_sets(cells, work, masks, sizes, &mut answer);
    say::answer(b"sets", &answer);
    say::numbers(work);
    say::words(masks);
    say::words(sizes);
}

fn sets(args: &[u32], cells: &[u16]) {
    let mut work = free_work();
    let mut masks = free_words();
    let mut sizes = free_words();
    let n = room(args, 0, WORK);
    let m = room(args, 1, MASKS);
    let k = room(args, 2, MASKS);
    sets_in(cells, &mut work[..n], &mut masks[..m], &mut sizes[..k]);
}

// The call for all pairs that has this name.
fn ask_all(
    word: &[u8],
    cells: &[u16],
    work: &mut [u16],
    map: &mut [u16],
    bytes: &mut [u8],
    answer: &mut [u64; 8],
) {
    if check::same(word, b"break_sentences") {
        purlquartz_break_sentences(cells, work, map, bytes, answer);
    } else {
        purlquartz_sentences(cells, work, map, bytes, answer);
    }
}

fn sentences_in(word: &[u8], cells: &[u16], work: &mut [u16], map: &mut [u16], bytes: &mut [u8]) {
    let mut answer = [0u64; 8];
    ask_all(word, cells, work, map, bytes, &mut answer);
    say::answer(word, &answer);
    say::numbers(work);
    say::numbers(map);
    say::numbers(bytes);
}

fn sentences(word: &[u8], args: &[u32], cells: &[u16]) {
    let mut work = free_work();
    let mut map = free_cells();
    let mut bytes = free_sentence_bytes();
    let n = room(args, 0, WORK);
    let m = room(args, 1, CELLS);
    let k = room(args, 2, SENTENCE_BYTES);
    sentences_in(word, cells, &mut work[..n], &mut map[..m], &mut bytes[..k]);
}

// The calls that read, check, write and convert a book. Answers whether the word is one of them.
fn on_book(word: &[u8], args: &[u32], cells: &[u16], bytes: &[u8]) -> bool {
    match word {
        b"read" => read(args, bytes),
        b"check" => check(cells),
        b"write" => write(args, cells),
        b"to_form_1" => to_form_1(args, cells),
        b"to_form_2" => to_form_2(args, cells),
        _ => return false,
    }
    true
}

// The calls for all pairs of a book.
fn on_pairs(word: &[u8], args: &[u32], cells: &[u16]) -> bool {
    match word {
        b"map" => map(args, cells),
        b"sets" => sets(args, cells),
        b"sentences" | b"break_sentences" => sentences(word, args, cells),
        _ => return false,
    }
    true
}

// The calls that run the machine of a book or find what reaches one pair.
fn on_machine(word: &[u8], args: &[u32], cells: &[u16], sentence: &[u8]) -> bool {
    match word {
        b"run" => run(args, cells, sentence),
        b"find" | b"find_break" => find(word, args, cells),
        _ => return false,
    }
    true
}

pub fn call(word: &[u8], args: &[u32], cells: &[u16], bytes: &[u8]) {
    if on_book(word, args, cells, bytes) {
        trial::text(b"\n");
    }
    if on_machine(word, args, cells, bytes) {
        trial::text(b"\n");
    }
    if on_pairs(word, args, cells) {
        trial::text(b"\n");
    }
    if check::same(word, b"check_certificate") {
        check_certificate(args, cells, bytes);
        trial::text(b"\n");
    }
}
