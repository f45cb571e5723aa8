// Which pairs fail: error pairs that are reached, and pairs whose reduction breaks.
#![tactic(auto)]

mod costs;
mod tests;

pub use costs::failures;
pub use tests::{has_cost, is_error, pair_fails};
