// A book in another form.
ghost use Rattle.std.specs.Prelude.{◌≡◌, ◌≤◌, length};
ghost use Rattle.number.specs.Lent.{over};
ghost use Rattle.book.specs.TablesLaws.{Accepted};
ghost use Rattle.forms.specs.Forms.{in_form_2, to_form_1, to_form_2};

use crate::cells::copy;
use crate::plain::{write_front, write_plain};
use crate::ranks::{first_moved, put_ranks};
use book::{Sizes, rank_count, refuse_if};
use number::{Cause, Refusal};

// Writes the book in form 2 at the front.
fn write_ranked(cells: &[u16], d: Sizes, to: &mut [u16])
    requires accepted { Accepted d cells.now }
    requires cells_in_bounds { length (in_form_2 cells.now) ≤ length to.old }
    ensures { to.new ≡ over (in_form_2 cells.now) to.old }
{
    let front = 5 + 2 * d.p;
    let start = front + rank_count(d);
    write_front(cells, d, 2, to);
    put_ranks(cells, d, to, front);
    copy(cells, start, cells.len() - start, to, front + d.t);
}

// The book of a checked one in form 1, or refusal 17 or 12.
fn convert_to_1(cells: &[u16], d: Sizes, lent: &mut [u16]) -> Result<usize, Refusal>
    requires { Accepted d cells.now }
    ensures { (result, lent.new) ≡ to_form_1 cells.now lent.old }
{
    let a = first_moved(cells, d);
    if a < d.t {
        return Err(Refusal::at(Cause::Order, 5 + 2 * d.p + a));
    }
    let n = cells.len() - rank_count(d);
    refuse_if(lent.len() < n, Cause::Output, 0)?;
    write_plain(cells, d, lent);
    Ok(n)
}

// The book of a checked one in form 2, or refusal 12.
fn convert_to_2(cells: &[u16], d: Sizes, lent: &mut [u16]) -> Result<usize, Refusal>
    requires { Accepted d cells.now }
    ensures { (result, lent.new) ≡ to_form_2 cells.now lent.old }
{
    let n = cells.len() - rank_count(d) + d.t;
    refuse_if(lent.len() < n, Cause::Output, 0)?;
    write_ranked(cells, d, lent);
    Ok(n)
}

// Writes the book in the cells in form 1 at the front of the lent cells and answers how many it has, or the refusals of `check`, then 17 at the
// first rank that is not its terminal's number, then 12, and changes no cell.
pub fn to_form_1(cells: &[u16], lent: &mut [u16]) -> Result<usize, Refusal>
    ensures { (result, lent.new) ≡ to_form_1 cells.now lent.old }
{
    let d = book::check(cells)?;
    convert_to_1(cells, d, lent)
}

// The same in form 2, with the refusals of `check`, then 12.
pub fn to_form_2(cells: &[u16], lent: &mut [u16]) -> Result<usize, Refusal>
    ensures { (result, lent.new) ≡ to_form_2 cells.now lent.old }
{
    let d = book::check(cells)?;
    convert_to_2(cells, d, lent)
}
