// All pairs in one call, from one crossing table: the map, and the sentence of each pair that has one.
#![tactic(auto)]

mod admission;
mod all_pairs;
mod costs;
mod pairs;

pub use all_pairs::{break_sentences, sentences};
