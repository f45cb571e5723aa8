// A list of sentences, checked whole, and read entry by entry.
ghost use Rattle.std.specs.Prelude.{◌≡◌};
ghost use Rattle.lists.specs.List.{entries_at, list_of, list_in, listing, next_at};
ghost use Rattle.lists.specs.ListLaws.{end_of};

use crate::entries::entry_at;
use crate::range::admit;
use crate::{Entry, Rest};
use book::refuse_if;
use number::{Cause, Cursor, Refusal};

// The entries of a list; answers where they end, or the refusal.
fn entry_row(list: &[u8], t: usize, n: usize, start: usize) -> Result<usize, Refusal>
    ensures { result ≡ end_of (entries_at t list.now n start) }
{
    let mut at = start;
    for _ in 0..n {
        let (_, next) = entry_at(list, at, t)?;
        at = next.at;
    }
    Ok(at)
}

// Where the first entry of a list over t terminals begins and how many there are, or the refusal.
pub fn check_entries(list: &[u8], t: usize) -> Result<Rest, Refusal>
    ensures { result ≡ listing list.now (list_of t list.now) }
{
    let (n, first) = admit(Cursor { at: 0 }.read(list), 0, 129, Cause::Entries, 0)?;
    let left = n as usize;
    let end = entry_row(list, t, left, first.at)?;
    refuse_if(end < list.len(), Cause::Surplus, end)?;
    Ok(Rest { at: first.at, left })
}

// Where the first entry of the list begins and how many there are, or the refusal of the book in the cells, then that of the list.
pub fn check_list(cells: &[u16], list: &[u8]) -> Result<Rest, Refusal>
    ensures { result ≡ listing list.now (list_in cells.now list.now) }
{
    let d = book::check(cells)?;
    check_entries(list, d.t)
}

// The next entry of a checked list, of which `left` entries are left from an offset on.
pub fn next_at(list: &[u8], at: usize, left: usize) -> Option<(Entry, Rest)>
    ensures { result ≡ next_at list.now at left }
{
    if left == 0 {
        return None;
    }
    match entry_at(list, at, 32) {
        Err(_) => None,
        Ok((e, next)) => {
            let rest = Rest {
                at: next.at,
                left: left - 1,
            };
            Some((e, rest))
        }
    }
}
