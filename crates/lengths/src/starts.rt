// The states at which walks begin that lead to a reduction for which a goto is missing.
ghost use Rattle.std.specs.Prelude.{false, ◌≡◌, ℕ, ◌+◌, ◌<◌, ◌≤◌};
ghost use Rattle.book.specs.Tables.{tables_of};
ghost use Rattle.book.specs.TablesLaws.{Holds};
ghost use Rattle.walk.specs.Scale.{plain, unreached};
ghost use Rattle.layers.specs.Layer.{entry_in};
ghost use Rattle.lengths.specs.Lengths.{LackingOn};

use book::{Sizes, goto_at};
use layers::add_state;
use sets::contains;
use walk::UNREACHED;

// Whether row q has a distance.
fn reached(dist: &[u16; 4096], t: usize, q: usize) -> bool
    requires { (q < 128) × (t ≤ 32) }
    ensures { result ≡ false → (a : ℕ) → a < t → unreached plain ≤ entry_in dist.now q a }
{
    let row = q * 32;
    for a in 0..t {
        if dist[row + a] < UNREACHED {
            return true;
        }
    }
    false
}

// Turns state q on, if walks begin there.
fn add_lacking(
    cells: &[u16],
    d: Sizes,
    x: usize,
    dist: &[u16; 4096],
    masks: &[u32; 128],
    q: usize,
    flags: &mut [u8; 257],
)
    requires holds { Holds d cells.now }
    requires q_lt_s { (q < d.s) × (x < d.n) }
    requires lacking_on { LackingOn plain d.t (tables_of cells.now) x dist.now masks.now q flags.old }
    ensures { LackingOn plain d.t (tables_of cells.now) x dist.now masks.now (q + 1) flags.new }
{
    if !contains(masks[q], x) {
        return;
    }
    if goto_at(cells, d, q, x) != 0 {
        return;
    }
    if !reached(dist, d.t, q) {
        return;
    }
    add_state(flags, q);
}

// The states without a goto under x, of those that are reached and have x in their masks.
pub fn lacking_states(
    cells: &[u16],
    d: Sizes,
    x: usize,
    dist: &[u16; 4096],
    masks: &[u32; 128],
    flags: &mut [u8; 257],
)
    requires holds { Holds d cells.now }
    requires x_lt_n { x < d.n }
    ensures { LackingOn plain d.t (tables_of cells.now) x dist.now masks.now d.s flags.new }
{
    *flags = [0; 257];
    for q in 0..d.s {
        add_lacking(cells, d, x, dist, masks, q, flags);
    }
}
