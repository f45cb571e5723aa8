// The answer for a pair whose least cost is known.
ghost use Rattle.std.specs.Prelude.{◌≤◌, ◌<◌, length};
ghost use Rattle.book.specs.Order.{place_in, Arranged};
ghost use Rattle.book.specs.Tables.{tables_of};
ghost use Rattle.book.specs.TablesLaws.{Holds};
ghost use Rattle.walk.specs.Answer.{WordsOf};
ghost use Rattle.walk.specs.Choice.{Guides};
ghost use Rattle.walk.specs.Cost.{Exact};
ghost use Rattle.walk.specs.Ends.{end_cost};
ghost use Rattle.walk.specs.Goal.{Aim};
ghost use Rattle.walk.specs.Scale.{plain};
ghost use Rattle.layers.specs.Crossing.{claim_in};
ghost use Rattle.layers.specs.Layer.{entry_in, layer_in};
ghost use Rattle.layers.specs.Opening.{OpenRows};
ghost use Rattle.crossings.specs.Crossings.{CrossingTable};
ghost use Rattle.search.specs.Ends.{Layered};
ghost use Rattle.finder.specs.Finder.{Answered};

use crate::Found;
use book::Sizes;
use walk::{LONG, UNREACHED};
use writing::write_sentence;

// .. by n; a sentence is chosen by the costs to go, and written at the front of the buffer.
pub fn tell_least(
    cells: &[u16],
    d: Sizes,
    table: &[u16],
    rows: &[u8; 4096],
    togo: &[u16; 4096],
    due: &[u16],
    len: usize,
    left: usize,
    order: &[u8; 32],
    breaks: bool,
    s: usize,
    z: usize,
    n: u16,
    buffer: &mut [u8],
) -> Found
    requires holds { Holds d cells.now }
    requires crossing_table { CrossingTable plain d cells.now table.now × OpenRows d (tables_of cells.now) rows.now }
    requires arranged { Arranged d.t order.now }
    requires guides { Guides plain (tables_of cells.now) (claim_in d table.now) z (Aim (tables_of cells.now) breaks s z) (end_cost (tables_of cells.now) left len (entry_in togo.now) (layer_in due.now)) }
    requires layered { Layered d due.now len left × Exact plain (WordsOf breaks (tables_of cells.now) s z) n × (z < d.t) × (plain.limit ≤ length buffer.old) }
    ensures { Answered breaks (place_in order.now) (tables_of cells.now) s z buffer.old result buffer.new }
{
    if n >= UNREACHED {
        return Found::Unreached;
    }
    if n >= LONG {
        return Found::Long;
    }
    let n = n as usize;
    write_sentence(
        cells, d, table, rows, togo, due, len, left, order, breaks, s, z, n, buffer,
    );
    Found::Sentence(n)
}
