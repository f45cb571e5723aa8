// Rows that can be passed over by the claims as they stand: a flag for each state and terminal, 0 only where no transition costs less than
// unreached.
ghost use Rattle.std.specs.Prelude.{false, ◌≡◌, ℕ, ◌+◌, ◌≤◌, ◌<◌, length, get_or};
ghost use Rattle.book.specs.Tables.{tables_of};
ghost use Rattle.book.specs.TablesLaws.{Holds};
ghost use Rattle.book.specs.declared.Action.TheVariants.{Shift};
ghost use Rattle.walk.specs.Scale.{plain};
ghost use Rattle.layers.specs.Crossing.{claim_in, Fitted, Usable};
ghost use Rattle.roads.specs.Roads.{Marked, Unclaimed, LeftNowhere};

use book::{Action, Sizes, action_at, goto_at};
use layers::crossing_row;
use walk::{UNREACHED, least};

// At most each of the n cells from start on.
fn least_in(table: &[u16], start: usize, n: usize) -> u16
    requires { start + n ≤ length table.now }
    ensures { (j : ℕ) → j < n → result ≤ get_or table.now (start + j) 0 }
{
    let mut v = UNREACHED;
    for j in 0..n {
        v = least(v, table[start + j]);
    }
    v
}

// Whether the goto of q under x is there and some claim for it, with the first terminal a, is below unreached.
fn goto_leaves(cells: &[u16], d: Sizes, table: &[u16], q: usize, a: usize, x: usize) -> bool
    requires fitted { Fitted d cells.now table.now }
    requires q_lt_s { (q < d.s) × (a < d.t) × (x < d.n) }
    ensures { result ≡ false → Unclaimed d (tables_of cells.now) (claim_in d table.now) q a x }
{
    if goto_at(cells, d, q, x) == 0 {
        return false;
    }
    least_in(table, crossing_row(d, q, x, a), d.t) < UNREACHED
}

fn gotos_leave(cells: &[u16], d: Sizes, table: &[u16], q: usize, a: usize) -> bool
    requires fitted { Fitted d cells.now table.now }
    requires q_lt_s { (q < d.s) × (a < d.t) }
    ensures { result ≡ false → (X : ℕ) → X < d.n → Unclaimed d (tables_of cells.now) (claim_in d table.now) q a X }
{
    for x in 0..d.n {
        if goto_leaves(cells, d, table, q, a, x) {
            return true;
        }
    }
    false
}

fn shift_leaves(cells: &[u16], d: Sizes, q: usize, a: usize) -> bool
    requires holds { Holds d cells.now }
    requires q_lt_s { (q < d.s) × (a < d.t) }
    ensures { result ≡ false → (s : ℕ) → ¬ ((tables_of cells.now).act q a ≡ Shift s) }
{
    matches!(action_at(cells, d, q, a), Action::Shift(_))
}

// The flag of cell k.
fn flag(cells: &[u16], d: Sizes, table: &[u16], k: usize) -> u8
    requires { Fitted d cells.now table.now }
    ensures { result ≡ 0 → LeftNowhere d (tables_of cells.now) (claim_in d table.now) k }
{
    let q = k / 32;
    let a = k % 32;
    if q >= d.s || a >= d.t {
        return 0;
    }
    if shift_leaves(cells, d, q, a) || gotos_leave(cells, d, table, q, a) {
        1
    } else {
        0
    }
}

pub fn live_rows(cells: &[u16], d: Sizes, table: &[u16], rows: &mut [u8; 4096])
    requires { Marked d cells.now table.now }
    ensures { Usable plain d cells.now table.now rows.new }
{
    *rows = [0; 4096];
    for k in 0..d.s * 32 {
        rows[k] = flag(cells, d, table, k);
    }
}
