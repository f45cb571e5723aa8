// What the programs share that run vectors: standard input in lines, what a line gives to the calls, and how their answers are printed. A line is
// a comment after '#', which is printed as it stands, or a word with numbers: it makes the book or the bytes of the calls after it (make.rt), or is
// a call of the library for C, which the program makes. For many calls at once: lists in many orders and splits (entries.rt), and answers in rows
// (rows.rt).
#![tactic(auto)]

pub mod entries;
mod lent;
mod lines;
mod make;
mod numbers;
pub mod rows;
pub mod say;

pub use lent::{
    BYTES, CELLS, MASKS, SENTENCE_BYTES, WORK, free_bytes, free_cells, free_sentence_bytes,
    free_words, free_work, room,
};
pub use lines::{Line, next, start};
pub use numbers::{ARGS, cell, size};

// How many cells the book has that was given, and as it was changed since; and how many bytes there are.
#[derive(Clone, Copy)]
pub struct Lengths {
    pub given: usize,
    pub cells: usize,
    pub bytes: usize,
}
