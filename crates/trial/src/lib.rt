// What the test programs share: the words of a line, and the parts of standard input.
#![tactic(auto)]

mod parts;
mod words;

pub use parts::part_at;
pub use words::{bytes, label, line, refusal, text, word};

// A part of some bytes, from start to end.
#[derive(Clone, Copy)]
pub struct Part {
    pub start: usize,
    pub end: usize,
}
