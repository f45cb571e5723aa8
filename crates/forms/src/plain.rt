// Plain cells: a book in form 1, whose layout is the one that all tables are read from, whatever its form and its ranks.
ghost use Rattle.std.specs.Prelude.{◌∷◌, ◌≡◌, ◌+◌, ◌*◌, ◌≤◌, length, take, drop};
ghost use Rattle.number.specs.Lent.{over};
ghost use Rattle.book.specs.TablesLaws.{Accepted};
ghost use Rattle.forms.specs.Forms.{in_form_1};
ghost use Rattle.forms.specs.FormsLaws.{with_form};

use crate::cells::copy;
use book::{Sizes, rank_count};

// The sizes of the book in form 1.
pub fn plain_sizes(d: Sizes) -> Sizes
    ensures { result ≡ with_form 1 d }
{
    Sizes { form: 1, ..d }
}

// Writes the form, the rest of the head and the productions.
pub fn write_front(cells: &[u16], d: Sizes, form: u16, to: &mut [u16])
    requires accepted { Accepted d cells.now }
    requires p_in_bounds { 5 + 2 * d.p ≤ length to.old }
    ensures { to.new ≡ over (form ∷ drop 1 (take (5 + 2 * d.p) cells.now)) to.old }
{
    to[0] = form;
    copy(cells, 1, 4 + 2 * d.p, to, 1);
}

// Writes the book in form 1 at the front.
pub fn write_plain(cells: &[u16], d: Sizes, to: &mut [u16])
    requires accepted { Accepted d cells.now }
    requires cells_in_bounds { length (in_form_1 cells.now) ≤ length to.old }
    ensures { to.new ≡ over (in_form_1 cells.now) to.old }
{
    let front = 5 + 2 * d.p;
    let start = front + rank_count(d);
    write_front(cells, d, 1, to);
    copy(cells, start, cells.len() - start, to, front);
}

// Writes the plain cells at the front of an array that is long enough for any book's, and answers how many there are.
pub fn plain_cells(cells: &[u16], d: Sizes, to: &mut [u16]) -> usize
    requires accepted { Accepted d cells.now }
    requires in_bounds { 8453 ≤ length to.old }
    ensures { (take result to.new ≡ in_form_1 cells.now) × (result ≤ 8453) }
{
    write_plain(cells, d, to);
    cells.len() - rank_count(d)
}
