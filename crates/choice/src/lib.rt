// The choice of a sentence: symbol by symbol, each the lowest by rank with which the stack completes in the symbols that are left.
#![tactic(auto)]

mod lowest_symbol;
mod sentence;
mod still;
mod taking;

pub use sentence::choose;
