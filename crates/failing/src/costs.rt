// The costs that tell which pairs fail, for all pairs at once.
ghost use Rattle.book.specs.Tables.{tables_of};
ghost use Rattle.book.specs.TablesLaws.{Holds};
ghost use Rattle.walk.specs.Scale.{plain};
ghost use Rattle.layers.specs.Opening.{OpenRows};
ghost use Rattle.crossings.specs.Crossings.{CrossingTable};
ghost use Rattle.distances.specs.Distances.{StartTable};
ghost use Rattle.lengths.specs.Lengths.{BreakTable};

use book::Sizes;
use distances::from_start;
use lengths::break_lengths;

// The distances from the start to every pair, and the least costs of breaks, from a crossing table.
pub fn failures(
    cells: &[u16],
    d: Sizes,
    table: &[u16],
    rows: &[u8; 4096],
    dist: &mut [u16; 4096],
    broken: &mut [u16; 4096],
)
    requires holds { Holds d cells.now }
    requires crossing_table { CrossingTable plain d cells.now table.now }
    requires open_rows { OpenRows d (tables_of cells.now) rows.now }
    ensures start_table { StartTable plain d cells.now dist.new }
    ensures break_table { BreakTable plain d cells.now broken.new }
{
    from_start(cells, d, table, rows, dist);
    break_lengths(cells, d, table, rows, dist, broken);
}
