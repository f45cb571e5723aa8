// The sentence of a pair, written: the memory that it takes is made here once for a sentence.
#![tactic(auto)]

mod sentence;

pub use sentence::write_sentence;
