// A list in state order.
#![tactic(auto)]

ghost use Rattle.std.specs.Prelude.{◌≡◌};
ghost use Rattle.sorting.specs.declared.Unsorted.TheVariants.{Fault, Refused};

mod putting;
mod sort;

use course::Judgement;
use number::Refusal;
pub use putting::put_entry;
pub use sort::sort_list;

// Why a list is not sorted: its first wrong or repeated entry, as a judgement tells it; or the refusal.
#[derive(Clone, Copy)]
pub enum Unsorted {
    Fault(Judgement),
    Refused(Refusal),
}

impl From<Judgement> for Unsorted {
    ghost from_gives = { λ j e. e ≡ Fault j };

    fn from(j: Judgement) -> Unsorted {
        Unsorted::Fault(j)
    }
}

impl From<Refusal> for Unsorted {
    ghost from_gives = { λ r e. e ≡ Refused r };

    fn from(r: Refusal) -> Unsorted {
        Unsorted::Refused(r)
    }
}
