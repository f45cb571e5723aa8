// The whole map: for every state and lookahead the least length of what reaches the pair.
ghost use Rattle.std.specs.Prelude.{Ok, ◌≡◌, ◌*◌, ◌≤◌, length};
ghost use Rattle.book.specs.TablesLaws.{Accepted};
ghost use Rattle.maps.specs.Admitted.{Filled};
ghost use Rattle.work.specs.Work.{work_cells, cleared};
ghost use Rattle.maps.specs.Maps.{Maps};

use crate::admission::admit_map;
use crate::rows::copy_rows;
use crate::start_distances::distances_in;
use book::Sizes;
use number::Refusal;
use walk::UNREACHED;

// The map of an accepted book, in room that is enough.
fn fill(cells: &[u16], d: Sizes, work: &mut [u16], lent: &mut [u16]) -> usize
    requires accepted { Accepted d cells.now }
    requires d_in_bounds { (work_cells d ≤ length work.old) × (d.s * d.t ≤ length lent.old) }
    ensures filled { Filled cells.now d lent.old (Ok result) lent.new }
    ensures work_after { work.new ≡ cleared d work.old }
{
    let mut dist = [UNREACHED; 4096];
    distances_in(cells, d, work, &mut dist);
    copy_rows(&dist, d.s, d.t, lent);
    d.s * d.t
}

// The map of a book that was checked.
fn map_of(cells: &[u16], d: Sizes, work: &mut [u16], lent: &mut [u16]) -> Result<usize, Refusal>
    requires { Accepted d cells.now }
    ensures { Maps cells.now work.old lent.old (result, (work.new, lent.new)) }
{
    admit_map(d, work.len(), lent.len())?;
    Ok(fill(cells, d, work, lent))
}

// Writes S × T cells by state, then terminal, and says how many.
pub fn map(cells: &[u16], work: &mut [u16], lent: &mut [u16]) -> Result<usize, Refusal>
    ensures { Maps cells.now work.old lent.old (result, (work.new, lent.new)) }
{
    let d = book::check(cells)?;
    map_of(cells, d, work, lent)
}
