// Runs the vectors in standard input that are for lists (the others: vectors). The crate script says what a line is; a call's answer and lent
// memory are printed on one line (calls.rt).
#![tactic(auto)]

mod calls;
mod joins;
mod orders;

ghost use Rattle.std.specs.Prelude.{◌≤◌, ◌<◌, length};

use script::{ARGS, BYTES, CELLS, Line};

// The most bytes of standard input.
const TEXT: usize = 262144;

// The call that a line is, if it is one.
fn call(text: &[u8], l: Line, args: &[u32], cells: &[u16], bytes: &[u8])
    requires { (l.start ≤ l.end) × (l.end ≤ length text.now) × (l.args ≤ length args.now) }
{
    let start = l.start;
    let end = l.end;
    let k = l.args;
    let n = l.lengths.cells;
    let m = l.lengths.bytes;
    if cells.len() < n {
        return;
    }
    if bytes.len() < m {
        return;
    }
    calls::call(&text[start..end], &args[..k], &cells[..n], &bytes[..m]);
}

// The line after the last one.
fn line(
    text: &[u8],
    last: Line,
    args: &mut [u32],
    given: &mut [u16; CELLS],
    cells: &mut [u16; CELLS],
    bytes: &mut [u8; BYTES],
) -> Line
    requires { last.next < length text.now }
    ensures { last.next < result.next }
{
    let l = script::next(text, last, args, given, cells, bytes);
    call(text, l, args, cells, bytes);
    l
}

fn lines(text: &[u8]) {
    let mut args = [0u32; ARGS];
    let mut given = [0u16; CELLS];
    let mut cells = [0u16; CELLS];
    let mut bytes = [0u8; BYTES];
    let mut l = script::start();
    while l.next < text.len() {
        l = line(text, l, &mut args, &mut given, &mut cells, &mut bytes);
    }
}

fn main() {
    let mut text = [0u8; TEXT];
    let n = io::read_full(0, &mut text);
    lines(&text[..n]);
}
