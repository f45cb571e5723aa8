// For each state the entry that is taken of two lists, as bytes: how many they are, and where they are put.
#![tactic(auto)]

mod pieces;

pub use pieces::{measure, put_pieces};
