// The search from a stack: whether a word that begins with a given terminal completes within a bound, and over which part of the stack.
#![tactic(auto)]

mod descend;
mod ends;
mod settle;

pub use descend::search_with;
