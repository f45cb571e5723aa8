// Two lists without a fault, written as one.
ghost use Rattle.std.specs.Prelude.{true, Ok, Err, [], ◌++◌, ◌≡◌, ◌≤◌, length};
ghost use Rattle.number.specs.Number.{written};
ghost use Rattle.book.specs.Tables.{tables_of};
ghost use Rattle.book.specs.TablesLaws.{Accepted, Holds};
ghost use Rattle.lists.specs.List.{list_of};
ghost use Rattle.course.specs.AcceptedLaws.{ListAccepted};
ghost use Rattle.course.specs.Turns.{EntriesPassed};
ghost use Rattle.sorting.specs.Sorting.{fitted};
ghost use Rattle.joining.specs.JoinLaws.{BothAccepted};
ghost use Rattle.joining.specs.Joining.{joined_in, joins};
ghost use Rattle.joining.specs.declared.Unjoined.TheVariants.{Refused};
ghost use Rattle.pieces.specs.Pieces.{count_to, pieces_to};

use crate::{Unjoined, Which};
use book::Sizes;
use course::judge_entries;
use forms::{PLAIN, plain_cells, plain_sizes};
use lists::{Rest, check_entries};
use machine::DEPTH;
use number::{Cause, Refusal, width, write};
use pieces::{measure, put_pieces};

// The count, then the entries that are taken by the places of the states.
fn put_list(
    first: &[u8],
    places: &[usize; 128],
    second: &[u8],
    others: &[usize; 128],
    states: usize,
    out: &mut [u8],
) -> Result<usize, Unjoined>
    requires { states ≤ 128 }
    ensures { (result, out.new) ≡ fitted Ok (λ r. Err (Refused r)) (written (count_to places.now others.now states) ++ pieces_to first.now places.now second.now others.now states) out.old }
{
    let Some((left, count)) = measure(first, places, second, others, states, out.len()) else {
        return Err(Unjoined::Refused(Refusal::at(Cause::Output, 0)));
    };
    if left < width(count as u32) {
        return Err(Unjoined::Refused(Refusal::at(Cause::Output, 0)));
    }
    let start = write(count as u32, out, 0);
    Ok(put_pieces(first, places, second, others, states, out, start))
}

// The second list after the first, which has no fault, and whose entries stand at the places.
fn join_second(
    cells: &[u16],
    d: Sizes,
    first: &[u8],
    rest: Rest,
    places: &[usize; 128],
    second: &[u8],
    other: Rest,
    stack: &mut [u16],
    out: &mut [u8],
) -> Result<usize, Unjoined>
    requires holds { Holds d cells.now }
    requires both_accepted { BothAccepted d.t first.now rest second.now other }
    requires entries_passed { EntriesPassed true (tables_of cells.now) d.t first.now rest.at rest.left places.now (Ok tt) }
    requires in_bounds { 1024 ≤ length stack.old }
    ensures { (result, out.new) ≡ joined_in (tables_of cells.now) first.now (list_of d.t first.now) second.now (list_of d.t second.now) out.old }
{
    let mut others = [0usize; 128];
    if let Err(j) = judge_entries(
        cells,
        d,
        second,
        other.at,
        other.left,
        true,
        &mut others,
        stack,
    ) {
        return Err(Unjoined::Fault(Which::Second, j));
    }
    put_list(first, places, second, &others, d.s, out)
}

// The lists against plain cells; their entries stand from offsets on.
fn join_plain(
    cells: &[u16],
    d: Sizes,
    first: &[u8],
    rest: Rest,
    second: &[u8],
    other: Rest,
    out: &mut [u8],
) -> Result<usize, Unjoined>
    requires holds { Holds d cells.now }
    requires both_accepted { BothAccepted d.t first.now rest second.now other }
    ensures { (result, out.new) ≡ joined_in (tables_of cells.now) first.now (list_of d.t first.now) second.now (list_of d.t second.now) out.old }
{
    let mut places = [0usize; 128];
    let mut stack = [0u16; DEPTH];
    if let Err(j) = judge_entries(
        cells,
        d,
        first,
        rest.at,
        rest.left,
        true,
        &mut places,
        &mut stack,
    ) {
        return Err(Unjoined::Fault(Which::First, j));
    }
    join_second(
        cells, d, first, rest, &places, second, other, &mut stack, out,
    )
}

// .. against a book of any form.
fn join_from(
    cells: &[u16],
    d: Sizes,
    first: &[u8],
    rest: Rest,
    second: &[u8],
    other: Rest,
    out: &mut [u8],
) -> Result<usize, Unjoined>
    requires accepted { Accepted d cells.now }
    requires both_accepted { BothAccepted d.t first.now rest second.now other }
    ensures { (result, out.new) ≡ joined_in (tables_of cells.now) first.now (list_of d.t first.now) second.now (list_of d.t second.now) out.old }
{
    let mut plain = [0u16; PLAIN];
    let n = plain_cells(cells, d, &mut plain);
    join_plain(&plain[..n], plain_sizes(d), first, rest, second, other, out)
}

// The second list is checked after the first.
fn join_with(
    cells: &[u16],
    d: Sizes,
    first: &[u8],
    rest: Rest,
    second: &[u8],
    out: &mut [u8],
) -> Result<usize, Unjoined>
    requires accepted { Accepted d cells.now }
    requires list_accepted { ListAccepted first.now (list_of d.t first.now) rest }
    ensures { (result, out.new) ≡ joined_in (tables_of cells.now) first.now (list_of d.t first.now) second.now (list_of d.t second.now) out.old }
{
    match check_entries(second, d.t) {
        Err(r) => Err(Unjoined::ListRefused(Which::Second, r)),
        Ok(other) => join_from(cells, d, first, rest, second, other, out),
    }
}

// The lists against a book that was checked.
fn join_against(
    cells: &[u16],
    d: Sizes,
    first: &[u8],
    second: &[u8],
    out: &mut [u8],
) -> Result<usize, Unjoined>
    requires { Accepted d cells.now }
    ensures { (result, out.new) ≡ joined_in (tables_of cells.now) first.now (list_of d.t first.now) second.now (list_of d.t second.now) out.old }
{
    match check_entries(first, d.t) {
        Err(r) => Err(Unjoined::ListRefused(Which::First, r)),
        Ok(rest) => join_with(cells, d, first, rest, second, out),
    }
}

// Writes the list that has for each state the entry with fewer symbols, at equal length the first list's, in state order at the front of the lent
// bytes; or tells the first list's fault, or else the second's; or refuses by the refusals of the book, of the first list, of the second, then by 12
// if the result does not fit. It writes no byte unless it answers a count.
pub fn join_lists(
    cells: &[u16],
    first: &[u8],
    second: &[u8],
    out: &mut [u8],
) -> Result<usize, Unjoined>
    ensures { (result, out.new) ≡ joins cells.now first.now second.now out.old }
{
    let d = book::check(cells)?;
    join_against(cells, d, first, second, out)
}
