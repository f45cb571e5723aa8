// The answers of the public calls as eight numbers, for callers in other languages.
#![tactic(auto)]

mod tell;

pub use tell::{
    tell_checked, tell_entry, tell_found, tell_joined, tell_judged, tell_listed, tell_next,
    tell_ran, tell_sorted, tell_verdict, tell_written,
};
