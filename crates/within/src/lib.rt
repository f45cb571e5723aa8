// Whether a sentence reaches its pair within a run's limits.
#![tactic(auto)]

mod reaching;

pub use reaching::reaches;
