// The entries of a list run in turn: the first fault, or the place of the entry that fails in each state.
#![tactic(auto)]

mod entries;

pub use entries::judge_entries;
use machine::Ending;

// The judgement of a list: the first fault with its entry's index, else the lowest state that has a failing pair and no entry, else complete.
#[derive(Clone, Copy)]
pub enum Judgement {
    Wrong(usize, Ending),
    OutOfOrder(usize),
    Repeat(usize),
    Uncovered(u16),
    Complete,
}
