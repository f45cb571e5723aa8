// The reductions in a layer: the lowest index of a claim that exceeds the cost of its road, where one is below an index at hand.
ghost use Rattle.std.specs.Prelude.{◌≡◌, ◌<◌};
ghost use Rattle.book.specs.Tables.{tables_of};
ghost use Rattle.walk.specs.Scale.{plain};
ghost use Rattle.layers.specs.Crossing.{claim_in, Fitted};
ghost use Rattle.layers.specs.Layer.{value_in};
ghost use Rattle.layers.specs.States.{flag_in, Listed};
ghost use Rattle.roads.specs.Lowest.{Lowered, Among};
ghost use Rattle.roads.specs.Roads.{Marked, ExceededBy, ExceededAt, ByLayer};

use book::{Action, Sizes, action_at, left_side, production_length};
use layers::{count_on, crossing_row, state_on};
use walk::UNREACHED;

// Production p is reduced under z, m transitions from (q, a), at the cost v.
fn compare(
    cells: &[u16],
    d: Sizes,
    table: &[u16],
    q: usize,
    a: usize,
    m: usize,
    z: usize,
    v: u16,
    p: usize,
    lowest: usize,
) -> usize
    requires fitted { Fitted d cells.now table.now }
    requires q_lt_s { (q < d.s) × (a < d.t) × (z < d.t) × (p < d.p) }
    ensures { Lowered (ExceededBy d (tables_of cells.now) (claim_in d table.now) q a m z v p) lowest result }
{
    if production_length(cells, d, p) as usize != m {
        return lowest;
    }
    let x = left_side(cells, d, p) as usize;
    let k = crossing_row(d, q, x, a) + z;
    if table[k] <= v {
        return lowest;
    }
    if k < lowest { k } else { lowest }
}

// The reduction in (last, z), if there is one.
fn compare_at(
    cells: &[u16],
    d: Sizes,
    table: &[u16],
    q: usize,
    a: usize,
    m: usize,
    last: usize,
    z: usize,
    v: u16,
    lowest: usize,
) -> usize
    requires marked { Marked d cells.now table.now }
    requires q_lt_s { (q < d.s) × (a < d.t) × (last < d.s) × (z < d.t) }
    ensures { Lowered (ExceededAt d (tables_of cells.now) (claim_in d table.now) q a m last z v) lowest result }
{
    if v >= UNREACHED {
        return lowest;
    }
    if let Action::Reduce(p) = action_at(cells, d, last, z) {
        compare(cells, d, table, q, a, m, z, v, p as usize, lowest)
    } else {
        lowest
    }
}

// The reductions in a state that is on.
fn compare_state(
    cells: &[u16],
    d: Sizes,
    table: &[u16],
    q: usize,
    a: usize,
    m: usize,
    values: &[u16; 4096],
    flags: &[u8; 257],
    last: usize,
    lowest: usize,
) -> usize
    requires marked { Marked d cells.now table.now }
    requires q_lt_s { (q < d.s) × (a < d.t) × (last < d.s) × ¬ (flag_in flags.now last ≡ 0) }
    ensures { Lowered (Among d.t (λ z. ExceededAt d (tables_of cells.now) (claim_in d table.now) q a m last z (value_in plain values.now flags.now last z))) lowest result }
{
    let row = last * 32;
    let mut low = lowest;
    for z in 0..d.t {
        low = compare_at(cells, d, table, q, a, m, last, z, values[row + z], low);
    }
    low
}

// All reductions of productions of m symbols, m transitions from (q, a).
pub fn compare_layer(
    cells: &[u16],
    d: Sizes,
    table: &[u16],
    q: usize,
    a: usize,
    m: usize,
    values: &[u16; 4096],
    flags: &[u8; 257],
    lowest: usize,
) -> usize
    requires marked { Marked d cells.now table.now }
    requires q_lt_s { (q < d.s) × (a < d.t) × Listed d.s flags.now }
    ensures { Lowered (ByLayer d (tables_of cells.now) (claim_in d table.now) q a m (value_in plain values.now flags.now)) lowest result }
{
    let mut low = lowest;
    for i in 0..count_on(flags) {
        let last = state_on(flags, i);
        low = compare_state(cells, d, table, q, a, m, values, flags, last, low);
    }
    low
}
