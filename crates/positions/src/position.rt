// Positions: a flag for each number of transitions and state, 0 if no walk that leads to a reduction stands there then: of a whole
// production that is as long as the walk, or of a longer one.
ghost use Rattle.std.specs.Prelude.{false, ◌≡◌, ℕ, ◌+◌, ◌≤◌, ◌<◌, length};
ghost use Rattle.book.specs.Tables.{tables_of};
ghost use Rattle.book.specs.TablesLaws.{Holds};
ghost use Rattle.positions.specs.Position.{Ends, position_in, BarredAction, BarredGoto, Barred, Positions};

use crate::production::longest_of_all;
use book::{Action, Sizes, action_at, goto_at, production_length};

// Whether a production of that length may be reduced after n transitions.
fn ends(whole: bool, len: usize, n: usize) -> bool
    ensures { result ≡ false → ¬ Ends whole len n }
{
    if whole { len == n } else { n < len }
}

// The flag of state q after n + 1 transitions. No production is longer than 32.
fn marked(positions: &[u8; 4096], n: usize, q: usize) -> bool
    requires { (n ≤ 32) × (q < 128) × (length positions.now ≡ 4096) }
    ensures { result ≡ false → position_in positions.now n q ≡ 0 }
{
    if n == 32 {
        return false;
    }
    positions[n * 128 + q] != 0
}

fn action_passes(
    cells: &[u16],
    d: Sizes,
    whole: bool,
    positions: &[u8; 4096],
    n: usize,
    q: usize,
    z: usize,
) -> bool
    requires holds { Holds d cells.now }
    requires n_bound { (n < 32) × (q < d.s) × (z < d.t) × (length positions.now ≡ 4096) }
    ensures { result ≡ false → BarredAction whole (tables_of cells.now) positions.now n q z }
{
    match action_at(cells, d, q, z) {
        Action::Shift(g) => marked(positions, n + 1, g as usize),
        Action::Reduce(p) => {
            let len = production_length(cells, d, p as usize) as usize;
            ends(whole, len, n + 1)
        }
        Action::Error => false,
        Action::Accept => false,
    }
}

fn goto_passes(
    cells: &[u16],
    d: Sizes,
    positions: &[u8; 4096],
    n: usize,
    q: usize,
    x: usize,
) -> bool
    requires holds { Holds d cells.now }
    requires n_bound { (n < 32) × (q < d.s) × (x < d.n) × (length positions.now ≡ 4096) }
    ensures { result ≡ false → BarredGoto (tables_of cells.now) positions.now n q x }
{
    let target = goto_at(cells, d, q, x);
    if target == 0 {
        return false;
    }
    marked(positions, n + 1, (target - 1) as usize)
}

fn actions_pass(
    cells: &[u16],
    d: Sizes,
    whole: bool,
    positions: &[u8; 4096],
    n: usize,
    q: usize,
) -> bool
    requires holds { Holds d cells.now }
    requires n_bound { (n < 32) × (q < d.s) × (length positions.now ≡ 4096) }
    ensures { result ≡ false → (z : ℕ) → z < d.t → BarredAction whole (tables_of cells.now) positions.now n q z }
{
    for z in 0..d.t {
        if action_passes(cells, d, whole, positions, n, q, z) {
            return true;
        }
    }
    false
}

fn gotos_pass(cells: &[u16], d: Sizes, positions: &[u8; 4096], n: usize, q: usize) -> bool
    requires holds { Holds d cells.now }
    requires n_bound { (n < 32) × (q < d.s) × (length positions.now ≡ 4096) }
    ensures { result ≡ false → (x : ℕ) → x < d.n → BarredGoto (tables_of cells.now) positions.now n q x }
{
    for x in 0..d.n {
        if goto_passes(cells, d, positions, n, q, x) {
            return true;
        }
    }
    false
}

// Whether such a walk can stand in q after n + 1 transitions, by the flags after one more.
fn passes(cells: &[u16], d: Sizes, whole: bool, positions: &[u8; 4096], n: usize, q: usize) -> bool
    requires holds { Holds d cells.now }
    requires n_bound { (n < 32) × (q < d.s) × (length positions.now ≡ 4096) }
    ensures { result ≡ false → Barred whole (tables_of cells.now) positions.now n q }
{
    actions_pass(cells, d, whole, positions, n, q) || gotos_pass(cells, d, positions, n, q)
}

// Cell k, when all after it are done.
fn mark(cells: &[u16], d: Sizes, whole: bool, positions: &mut [u8; 4096], k: usize)
    requires holds { Holds d cells.now }
    requires k_bound { k < 4096 }
    requires positions { Positions whole (tables_of cells.now) (k + 1) positions.old }
    ensures { Positions whole (tables_of cells.now) k positions.new }
{
    let n = k / 128;
    let q = k % 128;
    if q >= d.s {
        return;
    }
    if !passes(cells, d, whole, positions, n, q) {
        return;
    }
    positions[k] = 1;
}

// Every cell, from the last that a production can reach to the first.
pub fn mark_all(cells: &[u16], d: Sizes, whole: bool, positions: &mut [u8; 4096])
    requires { Holds d cells.now }
    ensures { Positions whole (tables_of cells.now) 0 positions.new }
{
    *positions = [0; 4096];
    for k in (0..longest_of_all(cells, d) * 128).rev() {
        mark(cells, d, whole, positions, k);
    }
}
