// What is checked of the rows before the sentences.
ghost use Rattle.std.specs.Prelude.{Ok, [], ◌≡◌, ◌*◌};
ghost use Rattle.book.specs.Call.{steps};
ghost use Rattle.book.specs.RangeLaws.{Small};
ghost use Rattle.layers.specs.Crossing.{room};
ghost use Rattle.certificate.specs.Checks.{row_refusals};

use book::Sizes;
use number::{Cause, Refusal};

// How many crossings there are.
fn crossing_count(d: Sizes) -> usize
    requires { Small d }
    ensures { result ≡ room d }
{
    d.s * d.n * d.t * d.t
}

// The refusals of rows of these lengths, for a book of the sizes d, which are handed back.
pub fn admit_rows(d: Sizes, crossings: usize, pairs: usize) -> Result<Sizes, Refusal>
    requires { Small d }
    ensures { result ≡ steps (Ok d) (row_refusals crossings (room d) (row_refusals pairs (d.s * d.t) [])) }
{
    let crossing_cells = crossing_count(d);
    let pair_cells = d.s * d.t;
    book::admit(
        d,
        &[
            (crossings < crossing_cells, Cause::Incomplete, crossings),
            (crossing_cells < crossings, Cause::Surplus, crossing_cells),
            (pairs < pair_cells, Cause::Incomplete, pairs),
            (pair_cells < pairs, Cause::Surplus, pair_cells),
        ],
    )
}
