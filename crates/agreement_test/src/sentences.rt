// The second finder's first road: all sentences in order, run on the machine. The first that reaches a pair, or with which its reduction
// breaks, is the shortest and first.
// Pair (q, z) has number q * 8 + z; its sentence stands at 1,024 times that number.
ghost use Rattle.std.specs.Prelude.{IfSome, ◌+◌, ◌<◌, ◌≤◌, length};

use crate::{follow, tables};

// A pair that no sentence reached, and one of which it is not known.
pub const NONE: u16 = 65535;

pub const UNKNOWN: u16 = 65534;

// How many sentences are tried.
const MOST: usize = 4000;

pub fn has(set: u32, q: usize) -> bool
    requires { q < 32 }
{
    (set >> q) % 2 == 1
}

pub fn store(words: &mut [u8; 262144], start: usize, w: &[u8])
    requires { (start ≤ 261120) × (length w.now ≤ 1000) }
{
    words[start..start + w.len()].copy_from_slice(w);
}

// The length of w for pair k, if it has none yet. Answers whether it had none.
fn first_time(least: &mut [u16; 256], k: usize, n: usize) -> bool
    requires { (k < 256) × (n ≤ 1000) }
{
    if least[k] != NONE {
        return false;
    }
    least[k] = n as u16;
    true
}

fn keep(least: &mut [u16; 256], words: &mut [u8; 262144], k: usize, w: &[u8])
    requires { (k < 256) × (length w.now ≤ 1000) }
{
    if first_time(least, k, w.len()) {
        store(words, k * 1024, w);
    }
}

// Keeps w for each state of the set.
fn note(least: &mut [u16; 256], words: &mut [u8; 262144], set: u32, z: usize, w: &[u8])
    requires { (z < 8) × (length w.now ≤ 1000) }
{
    for q in 0..32 {
        if has(set, q) {
            keep(least, words, q * 8 + z, w);
        }
    }
}

fn leave_open(least: &mut [u16; 256], k: usize)
    requires { k < 256 }
{
    if least[k] == NONE {
        least[k] = UNKNOWN;
    }
}

// No pair of lookahead z that has no sentence yet is known any more.
fn give_up(least: &mut [u16; 256], z: usize)
    requires { z < 8 }
{
    for q in 0..32 {
        leave_open(least, q * 8 + z);
    }
}

// What is noted of a run: the states that were on top, or the one whose reduction breaks.
pub fn noted(
    tables: &[u16; 768],
    breaks: bool,
    stack: &[u16; 4096],
    depth: Option<usize>,
    tops: u32,
    z: usize,
) -> u32
    requires { IfSome depth (λ d. (1 ≤ d) × (d < 4096)) }
{
    if breaks {
        follow::broken(tables, stack, depth, z)
    } else {
        tops
    }
}

fn try_with(
    tables: &[u16; 768],
    breaks: bool,
    stack: &mut [u16; 4096],
    w: &[u8],
    z: usize,
    least: &mut [u16; 256],
    words: &mut [u8; 262144],
)
    requires { (z < 8) × (length w.now ≤ 1000) }
{
    let s = follow::after(tables, stack, w, z);
    let set = noted(tables, breaks, stack, s.depth, s.tops, z);
    note(least, words, set, z, w);
    if !s.known {
        give_up(least, z);
    }
}

// A sentence, with every lookahead.
fn try_each(
    tables: &[u16; 768],
    breaks: bool,
    t: usize,
    stack: &mut [u16; 4096],
    w: &[u8],
    least: &mut [u16; 256],
    words: &mut [u8; 262144],
)
    requires { (t ≤ 8) × (length w.now ≤ 1000) }
{
    for z in 0..t {
        try_with(tables, breaks, stack, w, z, least, words);
    }
}

// Raises a symbol, or sets it back to 1 where it is the last terminal. Answers whether it was raised.
fn raise(word: &mut [u8; 1000], i: usize, last: u8) -> bool
    requires { i < 1000 }
{
    let v = word[i];
    if v < last {
        word[i] = v + 1;
        return true;
    }
    word[i] = 1;
    false
}

// Goes on to the next sentence; after the last of n symbols it is the first of n + 1. Answers its length.
fn next(word: &mut [u8; 1000], n: usize, last: u8) -> usize
    requires { n ≤ 1000 }
    ensures { result ≤ n + 1 }
{
    for i in (0..n).rev() {
        if raise(word, i, last) {
            return n;
        }
    }
    n + 1
}

// Keeps what reached pairs with an error action.
pub fn forget(tables: &[u16; 768], least: &mut [u16; 256]) {
    for (k, n) in least.iter_mut().enumerate() {
        if !tables::is_error(tables, k) {
            *n = NONE;
        }
    }
}

// Tries the sentences in order, and answers a length: all that are shorter were tried.
pub fn try_all(
    tables: &[u16; 768],
    breaks: bool,
    t: usize,
    least: &mut [u16; 256],
    words: &mut [u8; 262144],
) -> usize
    requires { (1 ≤ t) × (t ≤ 8) }
{
    let mut stack = [0u16; 4096];
    let mut word = [1u8; 1000];
    let mut n: usize = 0;
    for _ in 0..MOST {
        if n > 1000 {
            return n;
        }
        try_each(tables, breaks, t, &mut stack, &word[..n], least, words);
        if t == 1 {
            // There is no sentence but the empty one.
            return 1002;
        }
        n = next(&mut word, n, (t - 1) as u8);
    }
    n
}
