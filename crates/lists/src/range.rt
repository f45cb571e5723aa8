// Which numbers are in range where.
ghost use Rattle.std.specs.Prelude.{◌≡◌};
ghost use Rattle.book.specs.Book.{admitted};
ghost use Rattle.lists.specs.Entry.{outside};

use number::{Cause, Cursor, Refusal};

// What was found at a place, or its refusal where it is below least, or at the limit or above.
pub fn admit(
    found: Result<(u32, Cursor), Refusal>,
    least: usize,
    limit: usize,
    cause: Cause,
    at: usize,
) -> Result<(u32, Cursor), Refusal>
    ensures { result ≡ admitted (outside least limit cause) at found }
{
    let (v, next) = found?;
    let n = v as usize;
    if least <= n && n < limit {
        return Ok((v, next));
    }
    Err(Refusal::at(cause, at))
}
