// The numbers of a line. `n*v` stands for n times v, n in decimal.
ghost use Rattle.std.specs.Prelude.{◌≤◌, ◌<◌, length};

// The most numbers of a line.
pub const ARGS: usize = 17600;

// Digits as a decimal and a hexadecimal number.
#[derive(Clone, Copy)]
struct Digits {
    decimal: u32,
    hex: u32,
}

// A number that is being read: how often it stands there, and its digits, once it has one.
#[derive(Clone, Copy)]
struct Partial {
    times: u32,
    digits: Option<Digits>,
}

fn none(times: u32) -> Partial {
    Partial {
        times,
        digits: None,
    }
}

fn digit(c: u8) -> u32
    ensures { result < 16 }
{
    let d = c as u32;
    if c <= b'9' { d % 16 } else { (d + 9) % 16 }
}

// After one character more.
fn after(p: Partial, c: u8) -> Partial {
    let Digits { decimal, hex } = p.digits.unwrap_or(Digits { decimal: 0, hex: 0 });
    match c {
        b' ' => none(1),
        b'*' => none(decimal),
        _ => {
            let d = digit(c);
            Partial {
                times: p.times,
                digits: Some(Digits {
                    decimal: decimal % 65536 * 10 + d,
                    hex: hex % 65536 * 16 + d,
                }),
            }
        }
    }
}

// Stores a value so many times from a place on; answers the place after it.
fn store(to: &mut [u32], start: usize, times: u32, value: u32) -> usize
    requires { start ≤ length to.old }
    ensures { result ≤ length to.new }
{
    let end = start + (times as usize).min(to.len() - start);
    to[start..end].fill(value);
    end
}

// Stores a number, if it has a digit.
fn put(to: &mut [u32], start: usize, p: Partial, hex: bool) -> usize
    requires { start ≤ length to.old }
    ensures { result ≤ length to.new }
{
    let Some(digits) = p.digits else {
        return start;
    };
    store(
        to,
        start,
        p.times,
        if hex { digits.hex } else { digits.decimal },
    )
}

// The numbers of a text; answers how many.
pub fn read(text: &[u8], hex: bool, to: &mut [u32]) -> usize
    ensures { result ≤ length to.new }
{
    let mut n: usize = 0;
    let mut p = none(1);
    for c in text {
        if *c == b' ' {
            n = put(to, n, p, hex);
        }
        p = after(p, *c);
    }
    put(to, n, p, hex)
}

// Number k of a line, 0 where there is none.
pub fn size(args: &[u32], k: usize) -> usize
    ensures { result < 4294967296 }
{
    if k < args.len() { args[k] as usize } else { 0 }
}

pub fn cell(args: &[u32], k: usize) -> u16 {
    (size(args, k) % 65536) as u16
}

pub fn byte(args: &[u32], k: usize) -> u8 {
    (size(args, k) % 256) as u8
}
