// A book in cells: checked, and written as bytes.
ghost use Rattle.std.specs.Prelude.{◌≡◌, ◌≤◌, length};
ghost use Rattle.number.specs.Lent.{over};
ghost use Rattle.book.specs.Book.{of_cells, checked, bytes_of, writing};

use crate::call::refuse_if;
use crate::parts::{body_rows, head_row};
use crate::range::{close, sizes};
use crate::{Sizes, Source};
use number::{Cause, Refusal};

// The sizes of the book in the cells, or refusal 1, 3, 4, 5, 16, 14, 15 or 6 with the cell's index.
pub fn check(cells: &[u16]) -> Result<Sizes, Refusal>
    ensures { result ≡ checked (of_cells cells.now) }
{
    let source = Source::Cells(cells);
    let start = head_row(source)?;
    let d = sizes(cells);
    let end = body_rows(source, d, start)?;
    close(end, d, cells.len())
}

// How many bytes the numbers take.
fn byte_count(cells: &[u16]) -> usize
    ensures { result ≡ length (bytes_of cells.now) }
{
    let mut n: usize = 0;
    for cell in cells {
        n += number::width(*cell as u32);
    }
    n
}

// Encodes the cells at the front of the bytes.
fn encode_row(cells: &[u16], bytes: &mut [u8])
    requires { length (bytes_of cells.now) ≤ length bytes.old }
    ensures { bytes.new ≡ over (bytes_of cells.now) bytes.old }
{
    let mut at: usize = 0;
    for cell in cells {
        at = number::write(*cell as u32, bytes, at);
    }
}

// Writes the book in the cells at the front of the lent bytes and answers how many it takes, or the refusals of `check`, then 12,
// and changes no byte.
pub fn write(cells: &[u16], bytes: &mut [u8]) -> Result<usize, Refusal>
    ensures { (result, bytes.new) ≡ writing cells.now bytes.old }
{
    check(cells)?;
    let n = byte_count(cells);
    refuse_if(bytes.len() < n, Cause::Output, 0)?;
    encode_row(cells, bytes);
    Ok(n)
}
