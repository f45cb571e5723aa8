// One entry of a list: read at an offset, and its sentence.
ghost use Rattle.std.specs.Prelude.{◌≡◌};
ghost use Rattle.book.specs.RowLaws.{ends};
ghost use Rattle.lists.specs.Entry.{symbol_row, after_symbols, entry_at, part};

use crate::Entry;
use crate::range::admit;
use number::{Cause, Cursor, Refusal};

// The symbols of a sentence; answers where they end, or the refusal.
pub fn symbol_row(list: &[u8], start: usize, len: usize, t: usize) -> Result<usize, Refusal>
    ensures { result ≡ ends (symbol_row t list.now start len) }
{
    let mut at = start;
    for _ in 0..len {
        let (_, next) = admit(Cursor { at }.read(list), 1, t, Cause::Symbol, at)?;
        at = next.at;
    }
    Ok(at)
}

// The entry whose symbols begin at `start`, from there on.
fn after_length(list: &[u8], start: usize, len: usize, t: usize) -> Result<(Entry, Cursor), Refusal>
    ensures { result ≡ after_symbols t list.now start len (symbol_row t list.now start len) }
{
    let at = symbol_row(list, start, len, t)?;
    let (z, next) = admit(Cursor { at }.read(list), 0, t, Cause::Lookahead, at)?;
    let (article, end) = next.read(list)?;
    let entry = Entry {
        start,
        len,
        lookahead: z as usize,
        article,
    };
    Ok((entry, end))
}

// The entry at an offset of a list over t terminals, or refusal 1, 2, 7, 8 or 11 with its offset.
pub fn entry_at(list: &[u8], at: usize, t: usize) -> Result<(Entry, Cursor), Refusal>
    ensures { result ≡ entry_at t list.now at }
{
    let (len, next) = admit(Cursor { at }.read(list), 0, 1001, Cause::Length, at)?;
    after_length(list, next.at, len as usize, t)
}

// The symbols of an entry, as that part of the list's own bytes.
pub fn symbols(list: &[u8], start: usize, len: usize) -> &[u8]
    ensures { result.now ≡ part list.now start len }
{
    if start <= list.len() {
        if len <= list.len() - start {
            &list[start..start + len]
        } else {
            &list[start..]
        }
    } else {
        &list[..0]
    }
}
