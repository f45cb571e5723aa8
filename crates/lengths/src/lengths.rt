// The table of breaks, lowered to what the layers of each nonterminal and those from the bottom of the stack have.
ghost use Rattle.std.specs.Prelude.{◌≡◌, ◌<◌, length};
ghost use Rattle.book.specs.Tables.{tables_of};
ghost use Rattle.book.specs.TablesLaws.{Holds};
ghost use Rattle.walk.specs.Scale.{plain};
ghost use Rattle.layers.specs.Crossing.{claim_in};
ghost use Rattle.layers.specs.Layer.{Scratch, entry_in};
ghost use Rattle.layers.specs.Opening.{OpenRows};
ghost use Rattle.layers.specs.Step.{TableStep, Upto};
ghost use Rattle.crossings.specs.Crossings.{CrossingTable};
ghost use Rattle.distances.specs.Distances.{StartTable};
ghost use Rattle.lengths.specs.Lengths.{BreakTable, AheadMasks};
ghost use Rattle.lengths.specs.Starts.{FarBreak, ShortBreak};

use crate::Missing;
use crate::ahead::ahead;
use crate::layer::lower_layers;
use crate::reduction::last_of_all;
use crate::starts::lacking_states;
use book::Sizes;
use layers::{all_on, level};
use walk::UNREACHED;

// Breaks by states that are all pushed on the way, of reductions to x.
fn far_breaks(
    cells: &[u16],
    d: Sizes,
    table: &[u16],
    rows: &[u8; 4096],
    dist: &[u16; 4096],
    masks: &[u32; 128],
    x: usize,
    values: &mut [u16; 4096],
    next: &mut [u16; 4096],
    to: &mut [u16; 4096],
)
    requires holds { Holds d cells.now }
    requires crossing_table { CrossingTable plain d cells.now table.now × OpenRows d (tables_of cells.now) rows.now × StartTable plain d cells.now dist.now }
    requires ahead_masks { AheadMasks (tables_of cells.now) 0 d.s masks.now }
    requires x_lt_n { (x < d.n) × Scratch values.old next.old × (length to.old ≡ 4096) }
    ensures scratch { Scratch values.new next.new × (length to.new ≡ 4096) }
    ensures table_step { TableStep plain (FarBreak plain (tables_of cells.now) (claim_in d table.now) x) (entry_in to.old) (entry_in to.new) }
{
    let missing = Missing::Goto(x);
    let last = last_of_all(cells, d, missing);
    let mut flags = [0u8; 257];
    lacking_states(cells, d, x, dist, masks, &mut flags);
    *values = *dist;
    let mut next_flags = [0u8; 257];
    lower_layers(
        cells,
        d,
        table,
        rows,
        missing,
        last,
        values,
        &mut flags,
        next,
        &mut next_flags,
        to,
    );
}

// .. to any nonterminal.
fn all_far_breaks(
    cells: &[u16],
    d: Sizes,
    table: &[u16],
    rows: &[u8; 4096],
    dist: &[u16; 4096],
    values: &mut [u16; 4096],
    next: &mut [u16; 4096],
    to: &mut [u16; 4096],
)
    requires holds { Holds d cells.now }
    requires crossing_table { CrossingTable plain d cells.now table.now × OpenRows d (tables_of cells.now) rows.now × StartTable plain d cells.now dist.now }
    requires scratch { Scratch values.old next.old × (length to.old ≡ 4096) }
    ensures scratch_2 { Scratch values.new next.new × (length to.new ≡ 4096) }
    ensures table_step { TableStep plain (Upto (FarBreak plain (tables_of cells.now) (claim_in d table.now)) d.n) (entry_in to.old) (entry_in to.new) }
{
    let mut masks = [0u32; 128];
    ahead(cells, d, &mut masks);
    for x in 0..d.n {
        far_breaks(cells, d, table, rows, dist, &masks, x, values, next, to);
    }
}

// Breaks of productions that are as long as there are states stacked, or longer.
fn short_breaks(
    cells: &[u16],
    d: Sizes,
    table: &[u16],
    rows: &[u8; 4096],
    values: &mut [u16; 4096],
    next: &mut [u16; 4096],
    to: &mut [u16; 4096],
)
    requires holds { Holds d cells.now }
    requires crossing_table { CrossingTable plain d cells.now table.now × OpenRows d (tables_of cells.now) rows.now }
    requires scratch { Scratch values.old next.old × (length to.old ≡ 4096) }
    ensures to_len { length to.new ≡ 4096 }
    ensures table_step { TableStep plain (ShortBreak plain (tables_of cells.now) (claim_in d table.now)) (entry_in to.old) (entry_in to.new) }
{
    let last = last_of_all(cells, d, Missing::States);
    *values = [UNREACHED; 4096];
    level(values, 0, d.t, 0);
    let mut flags = [0u8; 257];
    all_on(&mut flags, 1);
    let mut next_flags = [0u8; 257];
    lower_layers(
        cells,
        d,
        table,
        rows,
        Missing::States,
        last,
        values,
        &mut flags,
        next,
        &mut next_flags,
        to,
    );
}

// For each pair that reduces, the least cost of a word with which the reduction breaks.
pub fn break_lengths(
    cells: &[u16],
    d: Sizes,
    table: &[u16],
    rows: &[u8; 4096],
    dist: &[u16; 4096],
    to: &mut [u16; 4096],
)
    requires holds { Holds d cells.now }
    requires crossing_table { CrossingTable plain d cells.now table.now }
    requires open_rows { OpenRows d (tables_of cells.now) rows.now }
    requires start_table { StartTable plain d cells.now dist.now }
    ensures { BreakTable plain d cells.now to.new }
{
    *to = [UNREACHED; 4096];
    let mut values = [UNREACHED; 4096];
    let mut next = [UNREACHED; 4096];
    all_far_breaks(cells, d, table, rows, dist, &mut values, &mut next, to);
    short_breaks(cells, d, table, rows, &mut values, &mut next, to);
}
