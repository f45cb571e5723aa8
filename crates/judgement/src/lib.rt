// The judgement of a list of sentences.
#![tactic(auto)]

mod admission;
mod coverage;
mod whole;

pub use course::Judgement;
pub use whole::judge;
