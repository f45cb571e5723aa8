// What is refused before a run.
ghost use Rattle.std.specs.Prelude.{◌≡◌};
ghost use Rattle.book.specs.Book.{of_cells, checked};
ghost use Rattle.book.specs.Call.{admits};
ghost use Rattle.machine.specs.Run.{sound_prefix, run_refusals};

use crate::DEPTH;
use book::Sizes;
use number::{Cause, Refusal};

// How many symbols a sentence can have.
const LONGEST: usize = 1000;

// The index of the first symbol that is 0, or t or more, or the length where there is none.
fn first_unsound(sentence: &[u8], t: usize) -> usize
    ensures { result ≡ sound_prefix t sentence.now }
{
    for (i, a) in sentence.iter().enumerate() {
        let a = *a as usize;
        if a == 0 {
            return i;
        }
        if a >= t {
            return i;
        }
    }
    sentence.len()
}

// The sizes of the book, or the first refusal.
pub fn admit(cells: &[u16], sentence: &[u8], lookahead: u16, room: usize) -> Result<Sizes, Refusal>
    ensures { result ≡ admits (checked (of_cells cells.now)) (run_refusals sentence.now lookahead room) }
{
    let d = book::check(cells)?;
    let sound = first_unsound(sentence, d.t);
    book::admit(
        d,
        &[
            (sentence.len() > LONGEST, Cause::Length, 0),
            (sound < sentence.len(), Cause::Symbol, sound),
            (lookahead as usize >= d.t, Cause::Lookahead, 0),
            (room < DEPTH, Cause::Room, 0),
        ],
    )
}
