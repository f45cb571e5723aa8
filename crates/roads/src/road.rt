// The lowest crossing whose claim exceeds a road, by the layers over the claims from each state and first terminal. Crossings are not met in
// the order of their indices, so that no search ends at the first.
ghost use Rattle.std.specs.Prelude.{true, ◌≤◌, ◌<◌};
ghost use Rattle.book.specs.Tables.{tables_of};
ghost use Rattle.walk.specs.Scale.{plain};
ghost use Rattle.layers.specs.Crossing.{claim_in, Usable};
ghost use Rattle.layers.specs.Layer.{value_in, Scratch};
ghost use Rattle.layers.specs.States.{Listed};
ghost use Rattle.positions.specs.Position.{Positions};
ghost use Rattle.roads.specs.Lowest.{Lowered, Among};
ghost use Rattle.roads.specs.Roads.{Marked, LayerPassed, ByRoads};

use crate::reduction::compare_layer;
use book::Sizes;
use layers::{begin, lengthen_within};
use positions::{longest_of_all, mark_all};
use walk::{LONG, UNREACHED};

// From the layer of m transitions from (q, a) on, in the states that a production passes. The two arrays of layers exchange their roles from
// one to the next.
fn lowest_from(
    cells: &[u16],
    d: Sizes,
    positions: &[u8],
    table: &[u16],
    rows: &[u8; 4096],
    q: usize,
    a: usize,
    len: usize,
    m: usize,
    values: &mut [u16; 4096],
    flags: &mut [u8; 257],
    next: &mut [u16; 4096],
    next_flags: &mut [u8; 257],
    lowest: usize,
) -> usize
    requires marked { Marked d cells.now table.now × Usable plain d cells.now table.now rows.now }
    requires q_lt_s { (q < d.s) × (a < d.t) × (m ≤ len) × (len ≤ 32) }
    requires positions { Positions true (tables_of cells.now) 0 positions.now }
    requires layer_passed { LayerPassed d cells.now table.now positions.now q a m (value_in plain values.old flags.old) }
    requires scratch { Scratch values.old next.old × Listed d.s flags.old }
    ensures scratch_2 { Scratch values.new next.new }
    ensures lowered { Lowered (ByRoads d (tables_of cells.now) (claim_in d table.now) q a m len) lowest result }
{
    let low = compare_layer(cells, d, table, q, a, m, values, flags, lowest);
    if m == len {
        return low;
    }
    let row = m * 128;
    let end = row + 128;
    lengthen_within(
        cells,
        d,
        table,
        rows,
        LONG,
        &positions[row..end],
        values,
        flags,
        next,
        next_flags,
    );
    lowest_from(
        cells,
        d,
        positions,
        table,
        rows,
        q,
        a,
        len,
        m + 1,
        next,
        next_flags,
        values,
        flags,
        low,
    )
}

// Every crossing of state q.
fn lowest_of_state(
    cells: &[u16],
    d: Sizes,
    positions: &[u8],
    table: &[u16],
    rows: &[u8; 4096],
    q: usize,
    len: usize,
    values: &mut [u16; 4096],
    flags: &mut [u8; 257],
    next: &mut [u16; 4096],
    next_flags: &mut [u8; 257],
    lowest: usize,
) -> usize
    requires marked { Marked d cells.now table.now × Usable plain d cells.now table.now rows.now }
    requires q_lt_s { (q < d.s) × (len ≤ 32) }
    requires positions { Positions true (tables_of cells.now) 0 positions.now }
    requires scratch { Scratch values.old next.old }
    ensures scratch_2 { Scratch values.new next.new }
    ensures lowered { Lowered (Among d.t (λ a. ByRoads d (tables_of cells.now) (claim_in d table.now) q a 0 len)) lowest result }
{
    let mut low = lowest;
    for a in 0..d.t {
        begin(values, flags, q, a);
        low = lowest_from(
            cells, d, positions, table, rows, q, a, len, 0, values, flags, next, next_flags, low,
        );
    }
    low
}

// The index of the lowest crossing whose claim exceeds a road, or the top.
pub fn lowest_road(cells: &[u16], d: Sizes, table: &[u16], rows: &[u8; 4096], top: usize) -> usize
    requires { Marked d cells.now table.now × Usable plain d cells.now table.now rows.now }
    ensures { Lowered (Among d.s (λ q. Among d.t (λ a. ByRoads d (tables_of cells.now) (claim_in d table.now) q a 0 32))) top result }
{
    let mut positions = [0u8; 4096];
    mark_all(cells, d, true, &mut positions);
    let mut values = [UNREACHED; 4096];
    let mut next = [UNREACHED; 4096];
    let mut flags = [0u8; 257];
    let mut next_flags = [0u8; 257];
    let len = longest_of_all(cells, d);
    let mut low = top;
    for q in 0..d.s {
        low = lowest_of_state(
            cells,
            d,
            &positions,
            table,
            rows,
            q,
            len,
            &mut values,
            &mut flags,
            &mut next,
            &mut next_flags,
            low,
        );
    }
    low
}
