// Lists of sentences: checked against a book, and read entry by entry.
#![tactic(auto)]

mod entries;
mod index;
mod list;
mod range;
mod reading;

pub use entries::{entry_at, symbol_row, symbols};
pub use index::nth_entry;
pub use list::{check_entries, check_list, next_at};
use number::Refusal;
pub use range::admit;
pub use reading::{next_entry, remaining, start};

// One entry of a list: where its symbols begin, how many there are, its lookahead and its article number.
#[derive(Clone, Copy, Debug, PartialEq, Eq)]
pub struct Entry {
    pub start: usize,
    pub len: usize,
    pub lookahead: usize,
    pub article: u32,
}

// The rest of a list: where its next entry begins, and how many are left.
#[derive(Clone, Copy, Debug, PartialEq, Eq)]
pub struct Rest {
    pub at: usize,
    pub left: usize,
}

// A reader over a list: the list, the rest of it, and the refusal if book or list was refused.
#[derive(Clone, Copy)]
pub struct Reader<'a> {
    pub list: &'a [u8],
    pub rest: Rest,
    pub refusal: Option<Refusal>,
}
