// What is checked after book and list before a list is judged: the room that is lent.
ghost use Rattle.std.specs.Prelude.{Ok, [], ◌≡◌};
ghost use Rattle.book.specs.Call.{steps};
ghost use Rattle.book.specs.RangeLaws.{Small};
ghost use Rattle.lists.specs.List.{entries};
ghost use Rattle.judgement.specs.Judgement.{judge_refusals};

use book::Sizes;
use machine::DEPTH;
use number::{Cause, Refusal};
use work::work_cells;

// The refusals for any list that is not refused.
pub fn admit_room(d: Sizes, work: usize, stack: usize) -> Result<Sizes, Refusal>
    requires { Small d }
    ensures { result ≡ steps (Ok d) (judge_refusals (entries [] 0) work stack d) }
{
    book::admit(
        d,
        &[
            (work < work_cells(d), Cause::Room, 0),
            (stack < DEPTH, Cause::Room, 0),
        ],
    )
}
