// A list with no wrong and no repeated entry, written in state order.
ghost use Rattle.std.specs.Prelude.{[], ◌++◌, ◌≡◌, ◌+◌, ◌≤◌, length, take};
ghost use Rattle.book.specs.Tables.{tables_of};
ghost use Rattle.book.specs.TablesLaws.{Accepted, Holds};
ghost use Rattle.lists.specs.List.{list_of};
ghost use Rattle.course.specs.AcceptedLaws.{ListAccepted};
ghost use Rattle.course.specs.Course.{clean};
ghost use Rattle.sorting.specs.Sorting.{sorted_by, sorted_in, sorts};
ghost use Rattle.sorting.specs.UpTo.{spans_to};

use crate::Unsorted;
use crate::putting::{copy_bytes, put_entries};
use book::Sizes;
use course::judge_entries;
use forms::{PLAIN, plain_cells, plain_sizes};
use lists::{Rest, check_entries};
use machine::DEPTH;
use number::{Cause, Refusal};

// The count as it stands before the first entry, then the entries by the places of the states. They are all of the list's bytes.
fn put_list(
    list: &[u8],
    first: usize,
    places: &[usize; 128],
    states: usize,
    out: &mut [u8],
) -> Result<usize, Unsorted>
    requires states_bound { states ≤ 128 }
    requires states_value { first + length (spans_to list.now places.now states) ≡ length list.now }
    ensures { (result, out.new) ≡ sorted_by (take first list.now ++ spans_to list.now places.now states) (clean []) out.old }
{
    let n = list.len();
    if out.len() < n {
        return Err(Unsorted::Refused(Refusal::at(Cause::Output, 0)));
    }
    copy_bytes(list, 0, first, out, 0);
    put_entries(list, places, states, out, first);
    Ok(n)
}

// The list against plain cells; its entries stand from an offset on.
fn sort_plain(
    cells: &[u16],
    d: Sizes,
    list: &[u8],
    rest: Rest,
    out: &mut [u8],
) -> Result<usize, Unsorted>
    requires holds { Holds d cells.now }
    requires list_accepted { ListAccepted list.now (list_of d.t list.now) rest }
    ensures { (result, out.new) ≡ sorted_in (tables_of cells.now) list.now (list_of d.t list.now) out.old }
{
    let first = rest.at;
    let mut places = [0usize; 128];
    let mut stack = [0u16; DEPTH];
    judge_entries(
        cells,
        d,
        list,
        first,
        rest.left,
        false,
        &mut places,
        &mut stack,
    )?;
    put_list(list, first, &places, d.s, out)
}

// .. against a book of any form.
fn sort_from(
    cells: &[u16],
    d: Sizes,
    list: &[u8],
    rest: Rest,
    out: &mut [u8],
) -> Result<usize, Unsorted>
    requires accepted { Accepted d cells.now }
    requires list_accepted { ListAccepted list.now (list_of d.t list.now) rest }
    ensures { (result, out.new) ≡ sorted_in (tables_of cells.now) list.now (list_of d.t list.now) out.old }
{
    let mut plain = [0u16; PLAIN];
    let n = plain_cells(cells, d, &mut plain);
    sort_plain(&plain[..n], plain_sizes(d), list, rest, out)
}

// The list against a book that was checked.
fn sort_against(cells: &[u16], d: Sizes, list: &[u8], out: &mut [u8]) -> Result<usize, Unsorted>
    requires { Accepted d cells.now }
    ensures { (result, out.new) ≡ sorts cells.now list.now out.old }
{
    let rest = check_entries(list, d.t)?;
    sort_from(cells, d, list, rest, out)
}

// Writes the list in ascending order of the states where its entries fail, at the front of the lent bytes; or tells its first wrong or
// repeated entry; or refuses by the refusals of `check_list`, then 12 if the result does not fit. It writes no byte unless it answers a count.
pub fn sort_list(cells: &[u16], list: &[u8], out: &mut [u8]) -> Result<usize, Unsorted>
    ensures { (result, out.new) ≡ sorts cells.now list.now out.old }
{
    let d = book::check(cells)?;
    sort_against(cells, d, list, out)
}
