// The lines of a state: one for each of its error actions and for each of its reductions that break, in the order of the terminals.
ghost use Rattle.std.specs.Prelude.{◌≡◌, ◌+◌, ◌≤◌, ◌<◌, length};
ghost use Rattle.book.specs.Order.{place_in, Arranged};
ghost use Rattle.book.specs.Tables.{tables_of};
ghost use Rattle.book.specs.TablesLaws.{Holds};
ghost use Rattle.walk.specs.Scale.{plain};
ghost use Rattle.crossings.specs.Crossings.{CrossingTable};
ghost use Rattle.lengths.specs.Lengths.{BreakTable};
ghost use Rattle.lines.specs.Line.{StateListed};
ghost use Rattle.lines.specs.Parts.{listed_in, ActionListed};

use crate::line::put_pair;
use book::Sizes;
use failing::{has_cost, is_error};

// Whether (s, z) has a line: its action is error, or a reduction that breaks.
pub fn listed(cells: &[u16], d: Sizes, broken: &[u16; 4096], s: usize, z: usize) -> bool
    requires holds { Holds d cells.now }
    requires s_lt_s { (s < d.s) × (z < d.t) }
    ensures { result ≡ listed_in cells.now broken.now s z }
{
    is_error(cells, d, s, z) || has_cost(broken, s, z)
}

// The line of (s, z), if it has one.
fn put_action(
    cells: &[u16],
    d: Sizes,
    table: &[u16],
    order: &[u8; 32],
    broken: &[u16; 4096],
    s: usize,
    z: usize,
    sentence: &mut [u8],
    out: &mut [u8],
    at: usize,
) -> usize
    requires holds { Holds d cells.now }
    requires crossing_table { CrossingTable plain d cells.now table.now }
    requires arranged { Arranged d.t order.now }
    requires break_table { BreakTable plain d cells.now broken.now }
    requires s_lt_s { (s < d.s) × (z < d.t) × (1000 ≤ length sentence.old) × (at + 4096 ≤ length out.old) }
    ensures action_listed { ActionListed (place_in order.now) (tables_of cells.now) s z out.old at out.new result }
    ensures upper_bound { result ≤ at + 4096 }
{
    if !listed(cells, d, broken, s, z) {
        return at;
    }
    put_pair(cells, d, table, order, s, z, sentence, out, at)
}

// All lines of state s, one after the other.
pub fn put_state(
    cells: &[u16],
    d: Sizes,
    table: &[u16],
    order: &[u8; 32],
    broken: &[u16; 4096],
    s: usize,
    out: &mut [u8],
    at: usize,
) -> usize
    requires holds { Holds d cells.now }
    requires crossing_table { CrossingTable plain d cells.now table.now }
    requires arranged { Arranged d.t order.now }
    requires break_table { BreakTable plain d cells.now broken.now }
    requires s_lt_s { (s < d.s) × (at + 131072 ≤ length out.old) }
    ensures state_listed { StateListed (place_in order.now) (tables_of cells.now) s out.old at out.new result }
    ensures upper_bound { result ≤ at + 131072 }
{
    let mut sentence = [0u8; 1000];
    let mut next = at;
    for z in 0..d.t {
        next = put_action(
            cells,
            d,
            table,
            order,
            broken,
            s,
            z,
            &mut sentence,
            out,
            next,
        );
    }
    next
}
