// The admission of a call, step by step.
ghost use Rattle.std.specs.Prelude.{Ok, ◌≡◌};
ghost use Rattle.book.specs.Call.{step, steps};

use crate::Sizes;
use number::{Cause, Refusal};

// Refused at the place where this holds.
pub fn refuse_if(this: bool, cause: Cause, place: usize) -> Result<(), Refusal>
    ensures { result ≡ step this cause place }
{
    if this {
        return Err(Refusal::at(cause, place));
    }
    Ok(())
}

// The sizes of a book that was checked, or the first refusal of the steps.
pub fn admit(d: Sizes, refusals: &[(bool, Cause, usize)]) -> Result<Sizes, Refusal>
    ensures { result ≡ steps (Ok d) refusals.now }
{
    for (this, cause, place) in refusals {
        refuse_if(*this, *cause, *place)?;
    }
    Ok(d)
}
