// Text put at a place of a lent buffer: words, decimal numbers, and the pieces of a line.
#![tactic(auto)]

mod pieces;

pub use pieces::{put, put_next, put_number, put_symbols, put_two};
