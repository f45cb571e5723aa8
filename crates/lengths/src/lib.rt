// The least cost of a word with which a reduction breaks, for every pair that reduces.
#![tactic(auto)]

mod ahead;
mod layer;
mod lengths;
mod reduction;
mod starts;

pub use lengths::break_lengths;

// What a reduction that breaks misses: the goto under a nonterminal in the state that it uncovers, or states to pop.
#[derive(Clone, Copy)]
enum Missing {
    Goto(usize),
    States,
}
