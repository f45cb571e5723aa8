// What comes before the lines of a listing.
#![tactic(auto)]

mod opening;

pub use opening::prepare;
