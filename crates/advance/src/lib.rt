// Advance: the machine's stack right after it has shifted a symbol, without its single reductions.
#![tactic(auto)]

mod distance;
mod push;

pub use distance::{FAR, nearest};
pub use push::push_to_shift;
