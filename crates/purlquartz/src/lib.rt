// The library for C and Rust: each public call under a C name, with its answer as eight numbers. The first is the kind, 0 for a refusal; the
// others are its values, 0 where there is none.
#![tactic(auto)]

mod books;
mod certificates;
mod entries;
mod pairs;
mod runs;

pub use books::{
    purlquartz_check, purlquartz_read, purlquartz_to_form_1, purlquartz_to_form_2, purlquartz_write,
};
pub use certificates::purlquartz_check_certificate;
pub use entries::{
    purlquartz_check_list, purlquartz_entry, purlquartz_join_lists, purlquartz_judge,
    purlquartz_next_entry, purlquartz_sort_list,
};
pub use pairs::{
    purlquartz_break_sentences, purlquartz_find, purlquartz_find_break, purlquartz_map,
    purlquartz_sentences, purlquartz_sets,
};
pub use runs::purlquartz_run;
