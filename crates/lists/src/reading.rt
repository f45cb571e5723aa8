// The reader: a list and the rest of it. The functions over it are thin; the work is done by functions that take the list and the numbers.
ghost use Rattle.std.specs.Prelude.{◌≡◌};
ghost use Rattle.lists.specs.Reading.{start_of, turn_of, moved};

use crate::list::{check_list, next_at};
use crate::{Entry, Reader, Rest};

// A reader over the list, which is checked whole. Of a refused list or book it has the refusal, and gives no entry.
pub fn start<'a>(cells: &[u16], list: &'a [u8]) -> Reader<'a>
    ensures { result ≡ start_of cells.now list.entry }
{
    match check_list(cells, list) {
        Ok(rest) => Reader {
            list,
            rest,
            refusal: None,
        },
        Err(r) => Reader {
            list,
            rest: Rest { at: 0, left: 0 },
            refusal: Some(r),
        },
    }
}

// The next entry, or none after the last; the reader moves on past the entry that it gave.
pub fn next_entry(r: &mut Reader<'_>) -> Option<Entry>
    ensures { (result ≡ turn_of r.old) × (r.new ≡ moved r.old) }
{
    let (entry, rest) = next_at(r.list, r.rest.at, r.rest.left)?;
    r.rest = rest;
    Some(entry)
}

// How many entries remain.
pub fn remaining(r: Reader<'_>) -> usize
    ensures { result ≡ r.entry.rest.left }
{
    r.rest.left
}
