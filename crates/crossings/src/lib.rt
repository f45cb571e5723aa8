// The crossing table: for each goto, first terminal and following terminal the least cost of crossing it.
#![tactic(auto)]

mod crossing;
mod production;
mod reduction;

pub use crossing::{crossings, crossings_with};
pub use reduction::lower;
