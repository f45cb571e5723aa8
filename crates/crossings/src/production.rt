// The longest production that can be crossed from a state.
ghost use Rattle.std.specs.Prelude.{◌≡◌, ℕ, suc, ◌≤◌, ◌<◌};
ghost use Rattle.book.specs.Tables.{tables_of};
ghost use Rattle.book.specs.TablesLaws.{Holds};
ghost use Rattle.crossings.specs.Pass.{LongestFrom};

use book::{Sizes, goto_at, left_side, production_length};
use walk::most;

// At least r, 32 at most, and at least the length of production p if q has a goto for its left side.
fn longer(cells: &[u16], d: Sizes, q: usize, p: usize, r: usize) -> usize
    requires holds { Holds d cells.now }
    requires q_lt_s { (q < d.s) × (p < d.p) × (r ≤ 32) }
    ensures { (r ≤ result) × (result ≤ 32) × ((g : ℕ) → (tables_of cells.now).goto q ((tables_of cells.now).lhs p) ≡ suc g → (tables_of cells.now).len p ≤ result) }
{
    let x = left_side(cells, d, p) as usize;
    if goto_at(cells, d, q, x) == 0 {
        return r;
    }
    most(r, production_length(cells, d, p) as usize)
}

pub fn longest(cells: &[u16], d: Sizes, q: usize) -> usize
    requires holds { Holds d cells.now }
    requires q_lt_s { q < d.s }
    ensures { LongestFrom (tables_of cells.now) q d.p result }
{
    let mut r = 0;
    for p in 0..d.p {
        r = longer(cells, d, q, p, r);
    }
    r
}
