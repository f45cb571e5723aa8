// Distances: from the start to every pair, and from every pair on to pairs that have weights.
#![tactic(auto)]

mod single_goal;
mod start;
mod to_goals;
mod transition;

pub use single_goal::only;
pub use start::from_start;
pub use to_goals::{mark, to_goal};
pub use transition::toward;
