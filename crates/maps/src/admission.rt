// What is checked before the map and the sets, after the book: the room that is lent.
ghost use Rattle.std.specs.Prelude.{Ok, ◌≡◌};
ghost use Rattle.book.specs.Call.{steps};
ghost use Rattle.book.specs.RangeLaws.{Small};
ghost use Rattle.maps.specs.Maps.{map_refusals, sets_refusals};

use book::Sizes;
use number::{Cause, Refusal};
use work::work_cells;

pub fn admit_map(d: Sizes, work: usize, lent: usize) -> Result<Sizes, Refusal>
    requires { Small d }
    ensures { result ≡ steps (Ok d) (map_refusals work lent d) }
{
    book::admit(
        d,
        &[
            (work < work_cells(d), Cause::Room, 0),
            (lent < d.s * d.t, Cause::Output, 0),
        ],
    )
}

pub fn admit_sets(d: Sizes, work: usize, masks: usize, sizes: usize) -> Result<Sizes, Refusal>
    requires { Small d }
    ensures { result ≡ steps (Ok d) (sets_refusals work masks sizes d) }
{
    book::admit(
        d,
        &[
            (work < work_cells(d), Cause::Room, 0),
            (masks < d.s, Cause::Output, 0),
            (sizes < d.s, Cause::Output, 0),
        ],
    )
}
