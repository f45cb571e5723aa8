// What reaches a pair.
ghost use Rattle.std.specs.Prelude.{false, ◌≤◌, ◌<◌, length};
ghost use Rattle.book.specs.Order.{place_in, Arranged};
ghost use Rattle.book.specs.Tables.{tables_of};
ghost use Rattle.book.specs.TablesLaws.{Holds};
ghost use Rattle.walk.specs.Scale.{plain};
ghost use Rattle.crossings.specs.Crossings.{CrossingTable};
ghost use Rattle.finder.specs.Finder.{Answered};

use crate::Found;
use crate::telling::tell_least;
use approach::start_cost;
use book::Sizes;
use distances::{only, to_goal};
use layers::open_rows;
use walk::UNREACHED;

// The answer for (s, z) of the words that reach it. No layers are needed beside the costs to go.
pub fn reach_pair(
    cells: &[u16],
    d: Sizes,
    table: &[u16],
    order: &[u8; 32],
    s: usize,
    z: usize,
    buffer: &mut [u8],
) -> Found
    requires holds { Holds d cells.now }
    requires crossing_table { CrossingTable plain d cells.now table.now }
    requires arranged { Arranged d.t order.now }
    requires s_lt_s { (s < d.s) × (z < d.t) × (plain.limit ≤ length buffer.old) }
    ensures { Answered false (place_in order.now) (tables_of cells.now) s z buffer.old result buffer.new }
{
    let t = d.t;
    let mut rows = [0u8; 4096];
    open_rows(cells, d, &mut rows);
    let mut togo = [UNREACHED; 4096];
    only(s, z, &mut togo);
    to_goal(cells, d, table, &rows, &mut togo);
    let n = start_cost(&togo, &table[..0], 0, t);
    tell_least(
        cells,
        d,
        table,
        &rows,
        &togo,
        &table[..0],
        0,
        0,
        order,
        false,
        s,
        z,
        n,
        buffer,
    )
}
