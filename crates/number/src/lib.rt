// One number of a book or a list: read at a cursor, its width, and written at a place.
#![tactic(auto)]

mod cause;

ghost use Rattle.std.specs.Prelude.{◌≡◌, ◌+◌, ◌*◌, ◌%◌, ◌≤◌, ◌<◌, length, drop};
ghost use Rattle.std.proofs.lemmas.List.Edits.{sets};
ghost use Rattle.number.specs.Number.{number_at, second, third, refusal, written};

pub use cause::{Cause, Refusal};

// Where the next number begins.
#[derive(Clone, Copy, Debug, PartialEq, Eq)]
pub struct Cursor {
    pub at: usize,
}

impl Cursor {
    // The number at the cursor with the cursor after it, or refusal 1 or 2 at its first byte.
    pub fn read(self, bytes: &[u8]) -> Result<(u32, Cursor), Refusal>
        ensures { result ≡ number_at bytes.now self.at }
    {
        let at = self.at;
        if bytes.len() <= at {
            return Err(Refusal::at(Cause::Incomplete, at));
        }
        let a = bytes[at];
        if a < 128 {
            return Ok((a as u32, Cursor { at: at + 1 }));
        }
        from_second(bytes, at, a)
    }
}

// The number at `at` whose first byte is a and has its top bit set.
fn from_second(bytes: &[u8], at: usize, a: u8) -> Result<(u32, Cursor), Refusal>
    requires { at < length bytes.now }
    ensures { result ≡ second at a (drop (at + 1) bytes.now) }
{
    let next = at + 1;
    if bytes.len() <= next {
        return Err(Refusal::at(Cause::Incomplete, at));
    }
    let b = bytes[next];
    if b == 0 {
        return Err(Refusal::at(Cause::Malformed, at));
    }
    if b < 128 {
        return Ok(((a % 128) as u32 + 128 * (b as u32), Cursor { at: at + 2 }));
    }
    from_third(bytes, at, a, b)
}

// The number at `at` whose first two bytes are a and b and have their top bits set.
fn from_third(bytes: &[u8], at: usize, a: u8, b: u8) -> Result<(u32, Cursor), Refusal>
    requires { at + 1 < length bytes.now }
    ensures { result ≡ third at a b (drop (at + 2) bytes.now) }
{
    let next = at + 2;
    if bytes.len() <= next {
        return Err(Refusal::at(Cause::Incomplete, at));
    }
    let c = bytes[next];
    if c == 0 {
        return Err(Refusal::at(Cause::Malformed, at));
    }
    if c >= 128 {
        return Err(Refusal::at(Cause::Malformed, at));
    }
    let value = (a % 128) as u32 + 128 * (b % 128) as u32 + 16384 * (c as u32);
    Ok((value, Cursor { at: at + 3 }))
}

// How many bytes a number takes.
pub fn width(n: u32) -> usize
    ensures { result ≡ length (written n) }
{
    if n < 128 {
        return 1;
    }
    if n < 16384 {
        return 2;
    }
    3
}

// Writes a number at a place and answers the place after it.
pub fn write(n: u32, bytes: &mut [u8], at: usize) -> usize
    requires n_bound { n < 2097152 }
    requires n_in_bounds { at + length (written n) ≤ length bytes.old }
    ensures { (result ≡ at + length (written n)) × (bytes.new ≡ sets bytes.old at (written n)) }
{
    if n < 128 {
        bytes[at] = n as u8;
        return at + 1;
    }
    bytes[at] = (n % 128 + 128) as u8;
    if n < 16384 {
        bytes[at + 1] = (n / 128) as u8;
        return at + 2;
    }
    bytes[at + 1] = (n / 128 % 128 + 128) as u8;
    bytes[at + 2] = (n / 128 / 128) as u8;
    at + 3
}
