// What it costs to go on to a stack on which a reduction breaks.
#![tactic(auto)]

mod near;
mod shortest;
mod sooner;
mod weights;

pub use shortest::start_cost;
pub use weights::to_break;
