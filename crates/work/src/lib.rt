// The work cells that a search is lent: how many it needs, and that they are left zero.
#![tactic(auto)]

ghost use Rattle.std.specs.Prelude.{◌≡◌, ◌≤◌, length, replicate};
ghost use Rattle.number.specs.Lent.{over};
ghost use Rattle.book.specs.RangeLaws.{Small};
ghost use Rattle.work.specs.Work.{work_cells};

use book::Sizes;
use walk::fill;

// How many work cells a search needs.
pub fn work_cells(d: Sizes) -> usize
    requires { Small d }
    ensures { result ≡ work_cells d }
{
    d.t * d.t * d.s * (d.n + 8)
}

// The first n work cells become zero.
pub fn clear(work: &mut [u16], n: usize)
    requires { n ≤ length work.old }
    ensures { work.new ≡ over (replicate n 0) work.old }
{
    fill(work, 0, n, 0);
}
