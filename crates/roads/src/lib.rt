// Roads over a table of claims: the lowest crossing whose claim exceeds one, and the lowest pair whose claim exceeds that of a pair one
// transition before it. The claims are taken as they stand, whatever they say.
#![tactic(auto)]

mod leaving;
mod pair;
mod reduction;
mod road;

pub use leaving::live_rows;
pub use pair::lowest_pair;
pub use road::lowest_road;
