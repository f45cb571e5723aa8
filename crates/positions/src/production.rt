// The longest production.
ghost use Rattle.book.specs.Tables.{tables_of};
ghost use Rattle.book.specs.TablesLaws.{Holds};
ghost use Rattle.positions.specs.Position.{LongestOf};

use book::{Sizes, production_length};
use walk::most;

// The length of the longest production.
pub fn longest_of_all(cells: &[u16], d: Sizes) -> usize
    requires { Holds d cells.now }
    ensures { LongestOf (tables_of cells.now) d.p result }
{
    let mut r: usize = 0;
    for p in 0..d.p {
        r = most(r, production_length(cells, d, p) as usize);
    }
    r
}
