// With what the reduction of a pair breaks.
ghost use Rattle.std.specs.Prelude.{true, ◌≡◌, ◌≤◌, ◌<◌, length};
ghost use Rattle.book.specs.Order.{place_in, Arranged};
ghost use Rattle.book.specs.Tables.{tables_of};
ghost use Rattle.book.specs.TablesLaws.{Holds};
ghost use Rattle.book.specs.declared.Action.TheVariants.{Reduce};
ghost use Rattle.walk.specs.Scale.{plain};
ghost use Rattle.crossings.specs.Crossings.{CrossingTable};
ghost use Rattle.finder.specs.Finder.{Answered};

use crate::Found;
use crate::telling::tell_least;
use approach::{start_cost, to_break};
use book::{Action, Sizes, action_at, left_side, production_length};
use layers::open_rows;
use walk::UNREACHED;

// Room for the layers of a production, 4,096 cells for each of up to 32. A function of its own, so that no proof counts so many cells.
fn layers() -> [u16; 131072]
    ensures { length result ≡ 131072 }
{
    [UNREACHED; 131072]
}

// The answer for (s, z), which reduces production p.
fn break_reduce(
    cells: &[u16],
    d: Sizes,
    table: &[u16],
    order: &[u8; 32],
    p: usize,
    s: usize,
    z: usize,
    buffer: &mut [u8],
) -> Found
    requires holds { Holds d cells.now }
    requires crossing_table { CrossingTable plain d cells.now table.now }
    requires arranged { Arranged d.t order.now }
    requires s_lt_s { (s < d.s) × (z < d.t) × (plain.limit ≤ length buffer.old) }
    requires p_lt_p { (p < d.p) × ((tables_of cells.now).act s z ≡ Reduce p) }
    ensures { Answered true (place_in order.now) (tables_of cells.now) s z buffer.old result buffer.new }
{
    let t = d.t;
    let len = production_length(cells, d, p) as usize;
    let left = left_side(cells, d, p) as usize;
    let mut rows = [0u8; 4096];
    open_rows(cells, d, &mut rows);
    let mut due = layers();
    let mut togo = [UNREACHED; 4096];
    to_break(cells, d, table, &rows, p, s, z, &mut due, &mut togo);
    let n = start_cost(&togo, &due, len, t);
    tell_least(
        cells, d, table, &rows, &togo, &due, len, left, order, true, s, z, n, buffer,
    )
}

// The answer for (s, z) of the words with which its reduction breaks; other actions have none.
pub fn break_pair(
    cells: &[u16],
    d: Sizes,
    table: &[u16],
    order: &[u8; 32],
    s: usize,
    z: usize,
    buffer: &mut [u8],
) -> Found
    requires holds { Holds d cells.now }
    requires crossing_table { CrossingTable plain d cells.now table.now }
    requires arranged { Arranged d.t order.now }
    requires s_lt_s { (s < d.s) × (z < d.t) × (plain.limit ≤ length buffer.old) }
    ensures { Answered true (place_in order.now) (tables_of cells.now) s z buffer.old result buffer.new }
{
    match action_at(cells, d, s, z) {
        Action::Reduce(p) => break_reduce(cells, d, table, order, p as usize, s, z, buffer),
        Action::Error => Found::Unreached,
        Action::Accept => Found::Unreached,
        Action::Shift(_) => Found::Unreached,
    }
}
