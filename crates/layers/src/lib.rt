// Layers: the least costs to stand at each state and next terminal after a number of transitions.
#![tactic(auto)]

mod leaving;
mod opening;
mod row;
mod starts;
mod states;
mod transition;

pub use opening::open_rows;
pub use row::{begin, level};
pub use starts::crossing_row;
pub use states::{add_state, all_on, count_on, state_on};
pub use transition::{lengthen, lengthen_within};
