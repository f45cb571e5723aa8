// Costs to go to a break: by states that are pushed on the way, and by layers of fewer transitions than the production is long.
ghost use Rattle.std.specs.Prelude.{◌≡◌, ◌<◌, length};
ghost use Rattle.book.specs.Tables.{tables_of};
ghost use Rattle.book.specs.TablesLaws.{Holds};
ghost use Rattle.walk.specs.Scale.{plain};
ghost use Rattle.layers.specs.Crossing.{claim_in};
ghost use Rattle.layers.specs.Layer.{entry_in, layer_in};
ghost use Rattle.layers.specs.Opening.{OpenRows};
ghost use Rattle.crossings.specs.Crossings.{CrossingTable};
ghost use Rattle.breaks.specs.BreakClaims.{ToBreak};
ghost use Rattle.approach.specs.Approach.{without_row, without_rows};

use crate::near::layers_to;
use book::{Sizes, goto_at, left_side, production_length};
use distances::to_goal;
use walk::{UNREACHED, fill};

// The row of state q becomes unreached if the state has a goto under x.
fn without_goto(cells: &[u16], d: Sizes, x: usize, layer: &mut [u16; 4096], q: usize)
    requires holds { Holds d cells.now }
    requires x_lt_n { (x < d.n) × (q < d.s) × (length layer.old ≡ 4096) }
    ensures { layer.new ≡ without_row plain (tables_of cells.now) x layer.old q }
{
    if goto_at(cells, d, q, x) == 0 {
        return;
    }
    fill(layer, q * 32, 32, UNREACHED);
}

// .. of every state.
fn without_gotos(cells: &[u16], d: Sizes, x: usize, layer: &mut [u16; 4096])
    requires holds { Holds d cells.now }
    requires x_lt_n { (x < d.n) × (length layer.old ≡ 4096) }
    ensures { layer.new ≡ without_rows plain (tables_of cells.now) x layer.old d.s }
{
    for q in 0..d.s {
        without_goto(cells, d, x, layer, q);
    }
}

// The costs to go to a break of production p in state s under z.
pub fn to_break(
    cells: &[u16],
    d: Sizes,
    table: &[u16],
    rows: &[u8; 4096],
    p: usize,
    s: usize,
    z: usize,
    due: &mut [u16; 131072],
    togo: &mut [u16; 4096],
)
    requires holds { Holds d cells.now }
    requires crossing_table { CrossingTable plain d cells.now table.now }
    requires open_rows { OpenRows d (tables_of cells.now) rows.now }
    requires p_lt_p { (p < d.p) × (s < d.s) × (z < d.t) × (length due.old ≡ 131072) }
    ensures to_break { ToBreak plain (tables_of cells.now) (claim_in d table.now) p s z (entry_in togo.new) (layer_in due.new) }
    ensures due_len { (length due.new ≡ 131072) × (length togo.new ≡ 4096) }
{
    let len = production_length(cells, d, p) as usize;
    let x = left_side(cells, d, p) as usize;
    layers_to(cells, d, table, rows, s, z, len, due, togo);
    without_gotos(cells, d, x, togo);
    to_goal(cells, d, table, rows, togo);
}
