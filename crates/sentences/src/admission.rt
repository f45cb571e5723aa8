// What is checked before the sentences, after the book: the room that is lent.
ghost use Rattle.std.specs.Prelude.{Ok, ◌≡◌};
ghost use Rattle.book.specs.Call.{steps};
ghost use Rattle.book.specs.RangeLaws.{Small};
ghost use Rattle.sentences.specs.Sentences.{sentences_refusals};

use book::Sizes;
use number::{Cause, Refusal};
use work::work_cells;

pub fn admit(d: Sizes, work: usize, map: usize, bytes: usize) -> Result<Sizes, Refusal>
    requires { Small d }
    ensures { result ≡ steps (Ok d) (sentences_refusals work map bytes d) }
{
    book::admit(
        d,
        &[
            (work < work_cells(d), Cause::Room, 0),
            (map < d.s * d.t, Cause::Output, 0),
            (bytes < d.s * d.t * 1002, Cause::Output, 0),
        ],
    )
}
