// The entries of a list, judged in turn.
ghost use Rattle.std.specs.Prelude.{true, cond, ◌≡◌, ◌≤◌, ◌<◌, length, drop, replicate};
ghost use Rattle.book.specs.Tables.{tables_of};
ghost use Rattle.book.specs.TablesLaws.{Holds};
ghost use Rattle.lists.specs.Entry.{sentence};
ghost use Rattle.lists.specs.EntryLaws.{Spelled};
ghost use Rattle.items.specs.Items.{item_of};
ghost use Rattle.course.specs.Course.{is_right, state_of, run_of};
ghost use Rattle.course.specs.Turns.{weighed, EntriesStanding, EntriesPassed};

use crate::Judgement;
use book::Sizes;
use lists::{Entry, next_at};
use machine::{Ending, drive, stop_of};

// Whether a run ended as error or as broken with a whole sentence in, which has as many symbols as len says.
fn is_right(ending: Ending, len: usize) -> bool
    ensures { result ≡ is_right len ending }
{
    match ending {
        Ending::Error(stop) => stop.taken == len,
        Ending::Accepted(_) => false,
        Ending::Broken(stop) => stop.taken == len,
        Ending::Passed(_) => false,
        Ending::Deep(_) => false,
        Ending::Spinning(_) => false,
    }
}

// The state in which the run of the entry of index i ended, or the entry's fault, where it ended so. No state below `least` is in order; the states of the entries before have places.
fn weigh(
    ending: Ending,
    i: usize,
    len: usize,
    least: u16,
    places: &[usize; 128],
) -> Result<u16, Judgement>
    requires { is_right len ending ≡ true → state_of ending < 128 }
    ensures { result ≡ weighed i len least places.now ending }
{
    if !is_right(ending, len) {
        return Err(Judgement::Wrong(i, ending));
    }
    let s = stop_of(ending).state;
    if s < least {
        return Err(Judgement::OutOfOrder(i));
    }
    if places[s as usize] != 0 {
        return Err(Judgement::Repeat(i));
    }
    Ok(s)
}

// Runs the entry's sentence where it stands in the list.
fn judge_entry(
    cells: &[u16],
    d: Sizes,
    list: &[u8],
    e: Entry,
    i: usize,
    least: u16,
    places: &[usize; 128],
    stack: &mut [u16],
) -> Result<u16, Judgement>
    requires holds { Holds d cells.now }
    requires spelled { Spelled d.t list.now e }
    requires in_bounds { 1024 ≤ length stack.old }
    ensures value { result ≡ weighed i (length (sentence list.now e)) least places.now (run_of (tables_of cells.now) (item_of list.now e)) }
    ensures stack_unchanged { drop 1024 stack.new ≡ drop 1024 stack.old }
{
    let start = e.start;
    let len = e.len;
    let z = e.lookahead as u16;
    let end = start + len;
    let ending = drive(cells, d, &list[start..end], z, stack);
    weigh(ending, i, len, least, places)
}

// The lowest state that is in order after an entry that fails in s.
fn least_after(ordered: bool, s: u16) -> u16
    ensures { result ≡ cond ordered s 0 }
{
    if ordered { s } else { 0 }
}

// The first fault of the entries from an offset on; without one each state in which an entry fails has that entry's offset as its place, and the
// others 0.
pub fn judge_entries(
    cells: &[u16],
    d: Sizes,
    list: &[u8],
    first: usize,
    count: usize,
    ordered: bool,
    places: &mut [usize; 128],
    stack: &mut [u16],
) -> Result<(), Judgement>
    requires holds { Holds d cells.now }
    requires entries_standing { EntriesStanding d.t list.now first count }
    requires places_value { places.old ≡ replicate 128 0 }
    requires in_bounds { 1024 ≤ length stack.old }
    ensures entries_passed { EntriesPassed ordered (tables_of cells.now) d.t list.now first count places.new result }
    ensures stack_unchanged { drop 1024 stack.new ≡ drop 1024 stack.old }
{
    let mut at = first;
    let mut left = count;
    let mut i: usize = 0;
    let mut least: u16 = 0;
    while let Some((e, rest)) = next_at(list, at, left) {
        let s = judge_entry(cells, d, list, e, i, least, places, stack)?;
        places[s as usize] = at;
        least = least_after(ordered, s);
        at = rest.at;
        left = rest.left;
        i += 1;
    }
    Ok(())
}
