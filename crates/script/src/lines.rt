// The lines of a text in turn.
ghost use Rattle.std.specs.Prelude.{◌≤◌, ◌<◌, length};

use crate::Lengths;
use crate::lent::{BYTES, CELLS};
use crate::make::make;
use crate::numbers::read;

// A line that was read: where its word stands, how many numbers it has, how much the calls are given after it, and where the next line begins.
#[derive(Clone, Copy)]
pub struct Line {
    pub start: usize,
    pub end: usize,
    pub args: usize,
    pub lengths: Lengths,
    pub next: usize,
}

// Before the first line.
pub fn start() -> Line {
    Line {
        start: 0,
        end: 0,
        args: 0,
        lengths: Lengths {
            given: 0,
            cells: 0,
            bytes: 0,
        },
        next: 0,
    }
}

// The end of what begins at a place: the next such byte before the stop, or the stop.
fn end_at(text: &[u8], start: usize, stop: usize, byte: u8) -> usize
    requires { (start ≤ stop) × (stop ≤ length text.now) }
    ensures { (start ≤ result) × (result ≤ stop) }
{
    for at in start..stop {
        if text[at] == byte {
            return at;
        }
    }
    stop
}

// The numbers after a word; those of `bytes` are hexadecimal. Answers how many.
fn arguments(word: &[u8], rest: &[u8], args: &mut [u32]) -> usize
    ensures { result ≤ length args.new }
{
    read(rest, check::same(word, b"bytes"), args)
}

// Reads the line that begins after the last one, and makes what it gives to the calls; a comment has no word.
pub fn next(
    text: &[u8],
    last: Line,
    args: &mut [u32],
    given: &mut [u16; CELLS],
    cells: &mut [u16; CELLS],
    bytes: &mut [u8; BYTES],
) -> Line
    requires { last.next < length text.now }
    ensures { (last.next < result.next) × (result.start ≤ result.end) × (result.end ≤ length text.now) × (result.args ≤ length args.new) }
{
    let at = last.next;
    let lengths = last.lengths;
    let stop = end_at(text, at, text.len(), b'\n');
    if text[at] == b'#' {
        trial::line(&text[at..stop]);
        return Line {
            start: at,
            end: at,
            args: 0,
            lengths,
            next: stop + 1,
        };
    }
    let end = end_at(text, at, stop, b' ');
    let n = arguments(&text[at..end], &text[end..stop], args);
    let made = make(&text[at..end], &args[..n], given, cells, bytes, lengths);
    Line {
        start: at,
        end,
        args: n,
        lengths: made,
        next: stop + 1,
    }
}
