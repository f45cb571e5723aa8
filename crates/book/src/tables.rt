// The tables, read out of valid cells.
ghost use Rattle.std.specs.Prelude.{◌≡◌, ◌<◌};
ghost use Rattle.book.specs.Tables.{tables_of};
ghost use Rattle.book.specs.TablesLaws.{Holds};

use crate::actions::decode;
use crate::{Action, Sizes};

pub fn action_at(cells: &[u16], d: Sizes, q: usize, a: usize) -> Action
    requires holds { Holds d cells.now }
    requires q_lt_s { (q < d.s) × (a < d.t) }
    ensures { result ≡ (tables_of cells.now).act q a }
{
    let t = d.t;
    let p = d.p;
    decode(cells[5 + 2 * p + (q * t + a)])
}

// 0 for none, else the state + 1.
pub fn goto_at(cells: &[u16], d: Sizes, q: usize, x: usize) -> u16
    requires holds { Holds d cells.now }
    requires q_lt_s { (q < d.s) × (x < d.n) }
    ensures { result ≡ (tables_of cells.now).goto q x }
{
    let t = d.t;
    let n = d.n;
    let states = d.s;
    let p = d.p;
    cells[5 + 2 * p + states * t + (q * n + x)]
}

pub fn left_side(cells: &[u16], d: Sizes, p: usize) -> u16
    requires holds { Holds d cells.now }
    requires p_lt_p { p < d.p }
    ensures { result ≡ (tables_of cells.now).lhs p }
{
    cells[5 + 2 * p]
}

pub fn production_length(cells: &[u16], d: Sizes, p: usize) -> u16
    requires holds { Holds d cells.now }
    requires p_lt_p { p < d.p }
    ensures { result ≡ (tables_of cells.now).len p }
{
    cells[6 + 2 * p]
}
