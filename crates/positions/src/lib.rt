// Positions: the states in which layers are wanted, by how many transitions lead there.
#![tactic(auto)]

mod position;
mod production;

pub use position::mark_all;
pub use production::longest_of_all;
