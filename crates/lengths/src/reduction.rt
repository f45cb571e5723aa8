// Reductions that break for want of something, by how many transitions lead to them from a start.
ghost use Rattle.std.specs.Prelude.{ℕ, ◌≤◌, ◌<◌};
ghost use Rattle.book.specs.Tables.{tables_of};
ghost use Rattle.book.specs.TablesLaws.{Holds};
ghost use Rattle.lengths.specs.Lengths.{Decides, LastFailing};
ghost use Rattle.lengths.specs.Starts.{Fails, Reduces};

use crate::Missing;
use book::{Action, Sizes, action_at, left_side, production_length};
use walk::most;

// Whether production p breaks so, m transitions from a start.
fn fails(cells: &[u16], d: Sizes, missing: Missing, m: usize, p: usize) -> bool
    requires holds { Holds d cells.now }
    requires m_bound { (m ≤ 32) × (p < d.p) }
    ensures { Decides result (Fails missing (tables_of cells.now) m p) }
{
    let len = production_length(cells, d, p) as usize;
    match missing {
        Missing::Goto(x) => {
            if len != m {
                return false;
            }
            left_side(cells, d, p) as usize == x
        }
        Missing::States => m + 1 <= len,
    }
}

// Whether (s, z) reduces such a production.
pub fn reduces(cells: &[u16], d: Sizes, missing: Missing, m: usize, s: usize, z: usize) -> bool
    requires holds { Holds d cells.now }
    requires m_bound { (m ≤ 32) × (s < d.s) × (z < d.t) }
    ensures { Decides result (Reduces missing (tables_of cells.now) m s z) }
{
    match action_at(cells, d, s, z) {
        Action::Reduce(p) => fails(cells, d, missing, m, p as usize),
        Action::Shift(_) => false,
        Action::Error => false,
        Action::Accept => false,
    }
}

// At least the number of transitions after which production p breaks so, if it does.
fn last(cells: &[u16], d: Sizes, missing: Missing, p: usize) -> usize
    requires holds { Holds d cells.now }
    requires p_lt_p { p < d.p }
    ensures { (result ≤ 32) × ((m : ℕ) → Fails missing (tables_of cells.now) m p → m ≤ result) }
{
    let len = production_length(cells, d, p) as usize;
    match missing {
        Missing::Goto(x) => {
            if left_side(cells, d, p) as usize == x {
                len
            } else {
                0
            }
        }
        Missing::States => len.saturating_sub(1),
    }
}

// .. any production.
pub fn last_of_all(cells: &[u16], d: Sizes, missing: Missing) -> usize
    requires { Holds d cells.now }
    ensures { LastFailing missing (tables_of cells.now) d.p result }
{
    let mut r: usize = 0;
    for p in 0..d.p {
        r = most(r, last(cells, d, missing, p));
    }
    r
}
