// Two lists of one book joined.
#![tactic(auto)]

ghost use Rattle.std.specs.Prelude.{◌≡◌};
ghost use Rattle.joining.specs.declared.Unjoined.TheVariants.{Refused};

mod join;

use course::Judgement;
pub use join::join_lists;
use number::Refusal;

// Which of the two lists.
#[derive(Clone, Copy)]
pub enum Which {
    First,
    Second,
}

// Why two lists are not joined: the first fault, as a judgement tells it, and whose it is; or the refusal, of book and lent bytes or of a list.
#[derive(Clone, Copy)]
pub enum Unjoined {
    Fault(Which, Judgement),
    Refused(Refusal),
    ListRefused(Which, Refusal),
}

impl From<Refusal> for Unjoined {
    ghost from_gives = { λ r e. e ≡ Refused r };

    fn from(r: Refusal) -> Unjoined {
        Unjoined::Refused(r)
    }
}
