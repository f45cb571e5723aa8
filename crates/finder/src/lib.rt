// What sequences reach one pair, and with what its reduction breaks.
#![tactic(auto)]

mod admission;
mod breaking;
mod find_pair;
mod prepared;
mod reaching;
mod telling;

pub use find_pair::{find, find_break};

// For our own crates, which answer many pairs of one book: `crossings::crossings` builds the crossing table in the work cells
// once, and `answer` reads it for each pair.
pub use prepared::answer;

// What the finder answers for one pair; a sentence stands at the front of the lent buffer.
#[derive(Clone, Copy, Debug, PartialEq, Eq)]
pub enum Found {
    Unreached,
    Long,
    Sentence(usize),
}
