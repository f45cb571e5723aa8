// The least costs of all pairs at once, by which a pair without a sentence is passed over.
ghost use Rattle.std.specs.Prelude.{◌≤◌, length};
ghost use Rattle.book.specs.TablesLaws.{Holds};
ghost use Rattle.walk.specs.Scale.{plain};
ghost use Rattle.layers.specs.Crossing.{room};
ghost use Rattle.crossings.specs.Crossings.{CrossingTable, Beyond};
ghost use Rattle.sentences.specs.Parts.{CostTable};

use book::Sizes;
use crossings::crossings;
use distances::from_start;
use layers::open_rows;
use lengths::break_lengths;

// Builds the crossing table, and from it the costs of the words that reach each pair, or of those with which its reduction breaks.
pub fn costs_in(cells: &[u16], d: Sizes, breaks: bool, table: &mut [u16], costs: &mut [u16; 4096])
    requires holds { Holds d cells.now }
    requires d_in_bounds { room d ≤ length table.old }
    ensures crossing_table { CrossingTable plain d cells.now table.new }
    ensures beyond { Beyond (room d) table.old table.new }
    ensures cost_table { CostTable breaks d cells.now costs.new }
{
    let mut rows = [0u8; 4096];
    open_rows(cells, d, &mut rows);
    crossings(cells, d, table, &rows);
    from_start(cells, d, table, &rows, costs);
    if breaks {
        let dist = *costs;
        break_lengths(cells, d, table, &rows, &dist, costs);
    }
}
