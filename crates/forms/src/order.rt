// The terminals by rising rank.
ghost use Rattle.book.specs.TablesLaws.{Accepted};
ghost use Rattle.forms.specs.OrderLaws.{ByRank};

use crate::ranks::rank_at;
use book::Sizes;

// Each terminal at the index that is its rank; the end mark stands where no other does.
pub fn by_rank(cells: &[u16], d: Sizes, order: &mut [u8; 32])
    requires { Accepted d cells.now }
    ensures { ByRank cells.now d order.new }
{
    *order = [0; 32];
    for a in 1..d.t {
        order[rank_at(cells, d, a) as usize] = a as u8;
    }
}
