// The lines of a listing: the header's counts, and each line's bytes.
#![tactic(auto)]

mod counts;
mod line;
mod state;

pub use counts::header_counts;
pub use line::{put_header, put_pair, put_refusal};
pub use state::put_state;

// The header's counts: lines and failing pairs.
#[derive(Clone, Copy)]
pub struct Header {
    pub lines: usize,
    pub failing: usize,
}
