// A certificate of a book's map: claimed least lengths in two rows, and sentences; checked without a search for any sentence.
#![tactic(auto)]

mod admission;
mod check;
mod claims;
mod sentences;

pub use check::check_certificate;

// What a certificate is held to, in order: no claim over 1,002; no crossing over a road; each (0, z) at 0; no pair over another and one
// transition; no pair long; each sentence as long as claimed, and reaching its pair within a run's limits.
#[derive(Clone, Copy)]
pub enum Condition {
    Range,
    Roads,
    Start,
    Transitions,
    Short,
    Sentences,
}

// Accepted; or the first condition that fails, with the lowest index of a claim at which it does.
#[derive(Clone, Copy)]
pub enum Verdict {
    Accepted,
    Fault(Condition, usize),
}
