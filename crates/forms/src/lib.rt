// The forms of a book: the converters, the plain cells that all tables are read from, and the terminals by rank.
#![tactic(auto)]

mod cells;
mod converters;
mod order;
mod plain;
mod ranks;

// How many cells a book has at most in form 1.
pub const PLAIN: usize = 8453;

pub use converters::{to_form_1, to_form_2};
pub use order::by_rank;
pub use plain::{plain_cells, plain_sizes};
