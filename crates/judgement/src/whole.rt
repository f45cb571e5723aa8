// A whole list: the checks, the entries in turn, then the states without one.
ghost use Rattle.std.specs.Prelude.{Ok, true, ◌≡◌, ◌≤◌, length, drop};
ghost use Rattle.book.specs.Tables.{tables_of};
ghost use Rattle.book.specs.TablesLaws.{Accepted, Holds};
ghost use Rattle.layers.specs.Crossing.{room};
ghost use Rattle.crossings.specs.Crossings.{Beyond};
ghost use Rattle.lists.specs.List.{list_of, listing};
ghost use Rattle.course.specs.Turns.{EntriesStanding, course_at};
ghost use Rattle.judgement.specs.Judgement.{Judged, Judges};

use crate::admission::admit_room;
use crate::coverage::cover;
use book::Sizes;
use course::{Judgement, judge_entries};
use forms::{PLAIN, plain_cells, plain_sizes};
use lists::{Rest, check_entries};
use machine::DEPTH;
use number::Refusal;
use work::{clear, work_cells};

// The judgement of the entries that stand from an offset on, against plain cells.
fn judge_plain(
    cells: &[u16],
    d: Sizes,
    list: &[u8],
    first: usize,
    count: usize,
    work: &mut [u16],
    stack: &mut [u16],
) -> Judgement
    requires holds { Holds d cells.now }
    requires entries_standing { EntriesStanding d.t list.now first count }
    requires d_in_bounds { room d ≤ length work.old }
    requires in_bounds { 1024 ≤ length stack.old }
    ensures judged { Judged (tables_of cells.now) (course_at true (tables_of cells.now) d.t list.now first count) result }
    ensures beyond { Beyond (room d) work.old work.new }
    ensures stack_unchanged { drop 1024 stack.new ≡ drop 1024 stack.old }
{
    let mut places = [0usize; 128];
    match judge_entries(cells, d, list, first, count, true, &mut places, stack) {
        Err(j) => j,
        Ok(()) => cover(cells, d, &places, work),
    }
}

// .. against a book of any form.
fn judge_from(
    cells: &[u16],
    d: Sizes,
    list: &[u8],
    first: usize,
    count: usize,
    work: &mut [u16],
    stack: &mut [u16],
) -> Judgement
    requires accepted { Accepted d cells.now }
    requires entries_standing { EntriesStanding d.t list.now first count }
    requires d_in_bounds { room d ≤ length work.old }
    requires in_bounds { 1024 ≤ length stack.old }
    ensures judged { Judged (tables_of cells.now) (course_at true (tables_of cells.now) d.t list.now first count) result }
    ensures beyond { Beyond (room d) work.old work.new }
    ensures stack_unchanged { drop 1024 stack.new ≡ drop 1024 stack.old }
{
    let mut plain = [0u16; PLAIN];
    let n = plain_cells(cells, d, &mut plain);
    judge_plain(&plain[..n], plain_sizes(d), list, first, count, work, stack)
}

// The judgement of a list that was checked: its entries are these.
fn judge_list(
    cells: &[u16],
    d: Sizes,
    list: &[u8],
    rest: Rest,
    work: &mut [u16],
    stack: &mut [u16],
) -> Result<Judgement, Refusal>
    requires accepted { Accepted d cells.now }
    requires list_value { listing list.now (list_of d.t list.now) ≡ Ok rest }
    ensures { Judges cells.now list.now work.old stack.old (result, (work.new, stack.new)) }
{
    admit_room(d, work.len(), stack.len())?;
    let found = judge_from(cells, d, list, rest.at, rest.left, work, stack);
    let n = work_cells(d);
    clear(work, n);
    clear(stack, DEPTH);
    Ok(found)
}

// Judges a list against the book in the cells. Leaves the first T × T × S × (N + 8) work cells and the first 1,024 stack cells zero; or
// refuses by the refusals of `check_list`, then 13 for the work cells, then 13 for the stack cells, and changes no cell.
pub fn judge(
    cells: &[u16],
    list: &[u8],
    work: &mut [u16],
    stack: &mut [u16],
) -> Result<Judgement, Refusal>
    ensures { Judges cells.now list.now work.old stack.old (result, (work.new, stack.new)) }
{
    let d = book::check(cells)?;
    let rest = check_entries(list, d.t)?;
    judge_list(cells, d, list, rest, work, stack)
}
