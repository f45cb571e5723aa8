// The table book: read out of bytes, checked, and written.
#![tactic(auto)]

mod actions;
mod bytes;
mod call;
mod cells;
mod parts;
mod range;
mod tables;

pub use actions::decode;
pub use bytes::read;
pub use call::{admit, refuse_if};
pub use cells::{check, write};
pub use range::rank_count;
pub use tables::{action_at, goto_at, left_side, production_length};

// The kinds of action that a cell holds, a shift with its state and a reduction with its production.
#[derive(Clone, Copy, Debug, PartialEq, Eq)]
pub enum Action {
    Error,
    Accept,
    Shift(u16),
    Reduce(u16),
}

// A book's form, and how many terminals, nonterminals, states and productions it has.
#[derive(Clone, Copy, Debug, PartialEq, Eq)]
pub struct Sizes {
    pub form: usize,
    pub t: usize,
    pub n: usize,
    pub s: usize,
    pub p: usize,
}

// The parts of a book in their order, each a row of numbers.
#[derive(Clone, Copy, Debug, PartialEq, Eq)]
pub enum Part {
    Head,
    Productions,
    Ranks,
    Actions,
    Gotos,
}

// What the numbers of a book are read from.
#[derive(Clone, Copy)]
pub enum Source<'a> {
    Bytes(&'a [u8]),
    Cells(&'a [u16]),
}
