// A book in bytes: checked whole, then decoded into cells.
ghost use Rattle.std.specs.Prelude.{◌≡◌, ◌≤◌, length};
ghost use Rattle.number.specs.Lent.{over};
ghost use Rattle.number.specs.Number.{number_at};
ghost use Rattle.book.specs.Book.{of_bytes, checked, reading};
ghost use Rattle.book.specs.RoundTripLaws.{Cells};
ghost use Rattle.book.specs.RowLaws.{values};

use crate::call::refuse_if;
use crate::parts::{body_rows, head_row};
use crate::range::{body_length, close, sizes};
use crate::{Sizes, Source};
use number::{Cause, Cursor, Refusal};

// Decodes n numbers into the first n cells, or as many as are well formed.
fn decode_row(bytes: &[u8], cells: &mut [u16], n: usize)
    requires n_in_bounds { n ≤ length cells.old }
    requires cells { Cells (values (number_at bytes.now) n 0) }
    ensures { cells.new ≡ over (values (number_at bytes.now) n 0) cells.old }
{
    let mut cursor = Cursor { at: 0 };
    for i in 0..n {
        let Ok((v, next)) = cursor.read(bytes) else {
            return;
        };
        cells[i] = v as u16;
        cursor = next;
    }
}

fn check_bytes(bytes: &[u8]) -> Result<Sizes, Refusal>
    ensures { result ≡ checked (of_bytes bytes.now) }
{
    let source = Source::Bytes(bytes);
    let start = head_row(source)?;
    let mut head = [0u16; 5];
    decode_row(bytes, &mut head, 5);
    let d = sizes(&head);
    let end = body_rows(source, d, start)?;
    close(end, d, bytes.len())
}

// Reads a book into the first of the lent cells and answers how many it has, or refusals 1 to 6 and 14 to 16, then 12, and changes no cell.
pub fn read(bytes: &[u8], cells: &mut [u16]) -> Result<usize, Refusal>
    ensures { (result, cells.new) ≡ reading bytes.now cells.old }
{
    let d = check_bytes(bytes)?;
    let n = 5 + body_length(d);
    refuse_if(cells.len() < n, Cause::Output, 0)?;
    decode_row(bytes, cells, n);
    Ok(n)
}
