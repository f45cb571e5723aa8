// The static library for C and Rust: each function of `purlquartz` under its C name.
#![tactic(auto)]

mod books;
mod certificates;
mod entries;
mod pairs;
mod runs;
