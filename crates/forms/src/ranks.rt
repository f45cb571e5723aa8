// The ranks of an accepted book.
ghost use Rattle.std.specs.Prelude.{not, ◌≡◌, ◌+◌, ◌≤◌, ◌<◌, eqb, length};
ghost use Rattle.std.proofs.Math.Seq.{paste};
ghost use Rattle.number.specs.Lent.{firsts};
ghost use Rattle.book.specs.Tables.{rank_of};
ghost use Rattle.book.specs.TablesLaws.{Accepted};
ghost use Rattle.forms.specs.Forms.{lowest};

use book::Sizes;

// In form 1 the terminal's number.
pub fn rank_at(cells: &[u16], d: Sizes, a: usize) -> u16
    requires accepted { Accepted d cells.now }
    requires a_lt_t { a < d.t }
    ensures { result ≡ rank_of cells.now a }
{
    if d.form == 2 {
        return cells[5 + 2 * d.p + a];
    }
    a as u16
}

// The first terminal whose rank is not its number, or T.
pub fn first_moved(cells: &[u16], d: Sizes) -> usize
    requires { Accepted d cells.now }
    ensures { result ≡ lowest (λ a. not (eqb (rank_of cells.now a) a)) d.t 0 }
{
    for a in 0..d.t {
        if rank_at(cells, d, a) as usize != a {
            return a;
        }
    }
    d.t
}

// Writes the T ranks from a place on.
pub fn put_ranks(cells: &[u16], d: Sizes, to: &mut [u16], at: usize)
    requires accepted { Accepted d cells.now }
    requires t_in_bounds { at + d.t ≤ length to.old }
    ensures { to.new ≡ paste to.old at (firsts (rank_of cells.now) d.t) d.t }
{
    for a in 0..d.t {
        to[at + a] = rank_at(cells, d, a);
    }
}
