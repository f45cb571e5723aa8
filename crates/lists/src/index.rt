// One entry of a list, by its index.
ghost use Rattle.std.specs.Prelude.{◌≡◌};
ghost use Rattle.lists.specs.List.{list_in, nth_in};
ghost use Rattle.lists.specs.NthLaws.{EntryPicked};

use crate::list::{check_list, next_at};
use crate::{Entry, Rest};
use number::Refusal;

// Entry k of the rest of a list.
fn nth_from(list: &[u8], first: Rest, k: usize) -> Option<Entry>
    ensures { EntryPicked list.now first k result }
{
    let mut rest = first;
    for _ in 0..k {
        let (_, more) = next_at(list, rest.at, rest.left)?;
        rest = more;
    }
    let (entry, _) = next_at(list, rest.at, rest.left)?;
    Some(entry)
}

// Entry k of the list, counted from 0, or none; or the refusal of the book, then that of the list.
pub fn nth_entry(cells: &[u16], list: &[u8], k: usize) -> Result<Option<Entry>, Refusal>
    ensures { result ≡ nth_in k (list_in cells.now list.now) }
{
    let rest = check_list(cells, list)?;
    Ok(nth_from(list, rest, k))
}
