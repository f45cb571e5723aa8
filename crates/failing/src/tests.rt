// Which pairs fail, by the costs.
ghost use Rattle.std.specs.Prelude.{◌≡◌, ◌<◌};
ghost use Rattle.book.specs.Tables.{tables_of};
ghost use Rattle.book.specs.TablesLaws.{Holds};
ghost use Rattle.failing.specs.Failing.{is_error};
ghost use Rattle.failing.specs.Tests.{has_cost, fails_in};

use book::{Action, Sizes, action_at};
use walk::UNREACHED;

// Whether the action of state s under the terminal z is error.
pub fn is_error(cells: &[u16], d: Sizes, s: usize, z: usize) -> bool
    requires holds { Holds d cells.now }
    requires s_lt_s { (s < d.s) × (z < d.t) }
    ensures { result ≡ is_error ((tables_of cells.now).act s z) }
{
    matches!(action_at(cells, d, s, z), Action::Error)
}

// Whether a table has a cost for (s, z).
pub fn has_cost(table: &[u16; 4096], s: usize, z: usize) -> bool
    requires { (s < 128) × (z < 32) }
    ensures { result ≡ has_cost table.now s z }
{
    table[s * 32 + z] < UNREACHED
}

// Whether (s, z) fails.
pub fn pair_fails(
    cells: &[u16],
    d: Sizes,
    dist: &[u16; 4096],
    broken: &[u16; 4096],
    s: usize,
    z: usize,
) -> bool
    requires holds { Holds d cells.now }
    requires s_lt_s { (s < d.s) × (z < d.t) }
    ensures { result ≡ fails_in cells.now dist.now broken.now s z }
{
    if is_error(cells, d, s, z) {
        has_cost(dist, s, z)
    } else {
        has_cost(broken, s, z)
    }
}
