// Distances in lent room.
ghost use Rattle.std.specs.Prelude.{◌≡◌, ◌≤◌, length};
ghost use Rattle.book.specs.TablesLaws.{Accepted, Holds};
ghost use Rattle.walk.specs.Scale.{plain};
ghost use Rattle.distances.specs.Distances.{StartTable};
ghost use Rattle.work.specs.Work.{work_cells, cleared};

use book::Sizes;
use crossings::crossings_with;
use distances::from_start;
use forms::{PLAIN, plain_cells, plain_sizes};
use layers::open_rows;
use walk::UNREACHED;
use work::{clear, work_cells};

// The distances from the start to every pair, of plain cells; the crossing table stands in the work cells meanwhile, and its layers in the
// distances.
fn distances_plain(cells: &[u16], d: Sizes, work: &mut [u16], dist: &mut [u16; 4096])
    requires holds { Holds d cells.now }
    requires d_in_bounds { work_cells d ≤ length work.old }
    ensures start_table { StartTable plain d cells.now dist.new }
    ensures work_after { work.new ≡ cleared d work.old }
{
    let mut rows = [0u8; 4096];
    open_rows(cells, d, &mut rows);
    *dist = [UNREACHED; 4096];
    let mut next = [UNREACHED; 4096];
    crossings_with(cells, d, work, &rows, dist, &mut next);
    from_start(cells, d, work, &rows, dist);
    let n = work_cells(d);
    clear(work, n);
}

// .. of a book of any form.
pub fn distances_in(cells: &[u16], d: Sizes, work: &mut [u16], dist: &mut [u16; 4096])
    requires accepted { Accepted d cells.now }
    requires d_in_bounds { work_cells d ≤ length work.old }
    ensures start_table { StartTable plain d cells.now dist.new }
    ensures work_after { work.new ≡ cleared d work.old }
{
    let mut plain = [0u16; PLAIN];
    let n = plain_cells(cells, d, &mut plain);
    distances_plain(&plain[..n], plain_sizes(d), work, dist);
}
