// What sequences reach, for all pairs at once: the whole map, the sets.
#![tactic(auto)]

mod admission;
mod reached_sets;
mod rows;
mod start_distances;
mod whole_map;

pub use reached_sets::sets;
pub use whole_map::map;
