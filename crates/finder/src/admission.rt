// What is checked before a search, after the book: the pair, and the room that is lent.
ghost use Rattle.std.specs.Prelude.{Ok, ◌≡◌};
ghost use Rattle.book.specs.Call.{steps};
ghost use Rattle.book.specs.RangeLaws.{Small};
ghost use Rattle.finder.specs.Finder.{pair_refusals};

use book::Sizes;
use number::{Cause, Refusal};
use walk::LIMIT;
use work::work_cells;

pub fn admit_pair(d: Sizes, s: u16, z: u16, work: usize, buffer: usize) -> Result<Sizes, Refusal>
    requires { Small d }
    ensures { result ≡ steps (Ok d) (pair_refusals s z work buffer d) }
{
    book::admit(
        d,
        &[
            (s as usize >= d.s, Cause::State, 0),
            (z as usize >= d.t, Cause::Lookahead, 0),
            (work < work_cells(d), Cause::Room, 0),
            (buffer < LIMIT as usize, Cause::Output, 0),
        ],
    )
}
