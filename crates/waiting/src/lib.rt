// The gotos that wait while the search works down a stack: the table of their costs, and how a state is expanded into it.
#![tactic(auto)]

mod events;
mod expansion;

pub use events::waiting_at;
pub use expansion::expand;
