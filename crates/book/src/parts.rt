// The parts of a book, number by number, from either source.
ghost use Rattle.std.specs.Prelude.{◌≡◌};
ghost use Rattle.book.specs.Book.{cell_at, part_in, parts_in, body};
ghost use Rattle.book.specs.BookLaws.{head_in};
ghost use Rattle.book.specs.PartsLaws.{numbers};
ghost use Rattle.book.specs.RangeLaws.{Few};
ghost use Rattle.book.specs.SeenLaws.{marked};
ghost use Rattle.book.specs.RowLaws.{ends};

use crate::range::{admit, part_length};
use crate::{Part, Sizes, Source};
use number::{Cause, Cursor, Refusal};
use sets::insert;

fn cell_at(cells: &[u16], i: usize) -> Result<(u32, Cursor), Refusal>
    ensures { result ≡ cell_at cells.now i }
{
    if i < cells.len() {
        return Ok((cells[i] as u32, Cursor { at: i + 1 }));
    }
    Err(Refusal::at(Cause::Incomplete, i))
}

fn number_at(source: Source<'_>, at: usize) -> Result<(u32, Cursor), Refusal>
    ensures { result ≡ numbers source.entry at }
{
    match source {
        Source::Bytes(bytes) => Cursor { at }.read(bytes),
        Source::Cells(cells) => cell_at(cells, at),
    }
}

// The set of the ranks seen, with v in it if it is a rank.
fn mark(part: Part, ranks: u32, v: u32) -> u32
    ensures { result ≡ marked part ranks v }
{
    match part {
        Part::Ranks => {
            if v < 32 {
                return insert(ranks, v as usize);
            }
            ranks
        }
        Part::Head | Part::Productions | Part::Actions | Part::Gotos => ranks,
    }
}

// The numbers of a part from a place on; answers where they end, or the first refusal.
fn part_row(source: Source<'_>, d: Sizes, part: Part, start: usize) -> Result<usize, Refusal>
    requires { Few d }
    ensures { result ≡ ends (part_in (numbers source.entry) d part start) }
{
    let mut at = start;
    let mut ranks: u32 = 0;
    for i in 0..part_length(d, part) {
        let (v, next) = admit(number_at(source, at), d, part, i, at, ranks)?;
        at = next.at;
        ranks = mark(part, ranks, v);
    }
    Ok(at)
}

// The head, which depends on no sizes.
pub fn head_row(source: Source<'_>) -> Result<usize, Refusal>
    ensures { result ≡ ends (head_in (numbers source.entry)) }
{
    let none = Sizes {
        form: 0,
        t: 0,
        n: 0,
        s: 0,
        p: 0,
    };
    part_row(source, none, Part::Head, 0)
}

// The parts after the head.
pub fn body_rows(source: Source<'_>, d: Sizes, head: usize) -> Result<usize, Refusal>
    requires { Few d }
    ensures { result ≡ ends (parts_in (numbers source.entry) d body head) }
{
    let productions = part_row(source, d, Part::Productions, head)?;
    let ranks = part_row(source, d, Part::Ranks, productions)?;
    let actions = part_row(source, d, Part::Actions, ranks)?;
    part_row(source, d, Part::Gotos, actions)
}
