// What is checked before a listing, and the crossing table that serves all its lines.
ghost use Rattle.std.specs.Prelude.{Ok, ◌≡◌};
ghost use Rattle.book.specs.Call.{steps};
ghost use Rattle.book.specs.TablesLaws.{Accepted};
ghost use Rattle.book.specs.RangeLaws.{Small};
ghost use Rattle.opening.specs.Prepare.{listing_refusals, Prepared};

use book::Sizes;
use crossings::crossings;
use forms::{PLAIN, plain_cells, plain_sizes};
use layers::open_rows;
use number::{Cause, Refusal};
use work::work_cells;

fn admit(d: Sizes, work: usize) -> Result<Sizes, Refusal>
    requires { Small d }
    ensures { result ≡ steps (Ok d) (listing_refusals work d) }
{
    book::admit(d, &[(work < work_cells(d), Cause::Room, 0)])
}

fn prepare_in(cells: &[u16], d: Sizes, work: &mut [u16]) -> Result<Sizes, Refusal>
    requires { Accepted d cells.now }
    ensures { Prepared cells.now work.old result work.new }
{
    admit(d, work.len())?;
    let mut plain = [0u16; PLAIN];
    let n = plain_cells(cells, d, &mut plain);
    let sizes = plain_sizes(d);
    let mut rows = [0u8; 4096];
    open_rows(&plain[..n], sizes, &mut rows);
    crossings(&plain[..n], sizes, work, &rows);
    Ok(d)
}

// Checks the book in the cells and builds the crossing table of its plain cells in the work cells; answers the book's sizes, or the refusal.
pub fn prepare(cells: &[u16], work: &mut [u16]) -> Result<Sizes, Refusal>
    ensures { Prepared cells.now work.old result work.new }
{
    let d = book::check(cells)?;
    prepare_in(cells, d, work)
}
