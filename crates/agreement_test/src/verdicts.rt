// The library's answers beside the second finder's: a verdict for each pair of a book.
ghost use Rattle.std.specs.Prelude.{◌<◌, ◌≤◌};

use crate::pops::UNREACHED;
use crate::sentences::{NONE, UNKNOWN, has, noted};
use crate::{follow, tables};

#[derive(Clone, Copy, PartialEq, Eq)]
pub enum Verdict {
    // No pair of the book.
    NoPair,
    Same,
    Other,
    Open,
}

// The verdict before anything is compared, in a book of s states and t terminals.
fn at_first(s: usize, t: usize, k: usize, least: &[u16; 256]) -> Verdict
    requires { k < 256 }
{
    if k / 8 >= s || k % 8 >= t {
        Verdict::NoPair
    } else if least[k] == UNKNOWN {
        Verdict::Open
    } else {
        Verdict::Same
    }
}

pub fn begin(s: usize, t: usize, least: &[u16; 256]) -> [Verdict; 256] {
    let mut verdicts = [Verdict::NoPair; 256];
    for (k, v) in verdicts.iter_mut().enumerate() {
        *v = at_first(s, t, k, least);
    }
    verdicts
}

// Pair k is the same so far; it stays so if the answers agree.
pub fn judge(verdicts: &mut [Verdict; 256], k: usize, agree: bool)
    requires { k < 256 }
{
    if verdicts[k] == Verdict::Same && !agree {
        verdicts[k] = Verdict::Other;
    }
}

// A length is that of the first sentence that reached the pair; where none did, it is no less than what was tried.
fn fits(cells: &[u16; 256], least: &[u16; 256], k: usize, tried: usize) -> bool
    requires { k < 256 }
{
    if least[k] == NONE {
        usize::from(cells[k]) >= tried
    } else {
        cells[k] == least[k]
    }
}

fn equal(cells: &[u16; 256], dist: &[u16; 256], k: usize) -> bool
    requires { k < 256 }
{
    cells[k] == dist[k]
}

// Whether the bit of pair k says if it is reached.
fn told(masks: &[u32; 128], dist: &[u16; 256], k: usize) -> bool
    requires { k < 256 }
{
    let bit = (masks[k / 8] >> (k % 8)) % 2 == 1;
    bit == (dist[k] < UNREACHED)
}

// Whether pair k has the same n symbols in both.
fn same_symbols(a: &[u8; 262144], b: &[u8; 262144], k: usize, n: usize) -> bool
    requires { (k < 256) × (n ≤ 1000) }
{
    let start = k * 1024;
    a[start..start + n] == b[start..start + n]
}

// The length of the sentence that was found for pair k, 0 for none.
fn length_at(least: &[u16; 256], k: usize) -> usize
    requires { k < 256 }
    ensures { result ≤ 1000 }
{
    let n = usize::from(least[k]);
    if n > 1000 { 0 } else { n }
}

// Whether the n symbols from a place on reach pair k, or make it break.
fn brings(tables: &[u16; 768], breaks: bool, k: usize, words: &[u8], start: usize, n: usize) -> bool
    requires { (k < 256) × (start ≤ 261120) × (n ≤ 1000) }
{
    let end = start + n;
    if end > words.len() {
        return false;
    }
    let mut stack = [0u16; 4096];
    let c = follow::after(tables, &mut stack, &words[start..end], k % 8);
    let set = noted(tables, breaks, &stack, c.depth, c.tops, k % 8);
    has(set, k / 8)
}

// Whether the sentence that is told for pair k, if there is one, brings the machine there.
fn sound(
    tables: &[u16; 768],
    breaks: bool,
    lengths: &[u16; 256],
    theirs: &[u8; 262144],
    k: usize,
) -> bool
    requires { k < 256 }
{
    let n = usize::from(lengths[k]);
    n > 1000 || brings(tables, breaks, k, theirs, k * 1024, n)
}

// Whether the library's length and sentence for pair k are those of the second finder.
fn found(
    tables: &[u16; 768],
    breaks: bool,
    tried: usize,
    least: &[u16; 256],
    words: &[u8; 262144],
    dist: &[u16; 256],
    lengths: &[u16; 256],
    theirs: &[u8; 262144],
    k: usize,
) -> bool
    requires { k < 256 }
{
    fits(lengths, least, k, tried)
        && equal(lengths, dist, k)
        && same_symbols(words, theirs, k, length_at(least, k))
        && sound(tables, breaks, lengths, theirs, k)
}

// Whether the library says of pair k, by the map, by find and by the sets, what the second finder says.
fn agrees(
    tables: &[u16; 768],
    tried: usize,
    least: &[u16; 256],
    words: &[u8; 262144],
    dist: &[u16; 256],
    map: &[u16; 256],
    lengths: &[u16; 256],
    theirs: &[u8; 262144],
    masks: &[u32; 128],
    k: usize,
) -> bool
    requires { k < 256 }
{
    fits(map, least, k, tried)
        && equal(map, dist, k)
        && told(masks, dist, k)
        && found(tables, false, tried, least, words, dist, lengths, theirs, k)
}

pub fn by_pairs(
    tables: &[u16; 768],
    tried: usize,
    least: &[u16; 256],
    words: &[u8; 262144],
    dist: &[u16; 256],
    map: &[u16; 256],
    lengths: &[u16; 256],
    theirs: &[u8; 262144],
    masks: &[u32; 128],
    verdicts: &mut [Verdict; 256],
) {
    for k in 0..256 {
        judge(
            verdicts,
            k,
            agrees(
                tables, tried, least, words, dist, map, lengths, theirs, masks, k,
            ),
        );
    }
}

// .. and by find_break; without a reduction it says that none breaks.
fn agrees_break(
    tables: &[u16; 768],
    tried: usize,
    least: &[u16; 256],
    words: &[u8; 262144],
    costs: &[u16; 256],
    lengths: &[u16; 256],
    theirs: &[u8; 262144],
    k: usize,
) -> bool
    requires { k < 256 }
{
    if tables::reduces(tables, k) {
        found(tables, true, tried, least, words, costs, lengths, theirs, k)
    } else {
        lengths[k] == UNREACHED
    }
}

pub fn by_breaks(
    tables: &[u16; 768],
    tried: usize,
    least: &[u16; 256],
    words: &[u8; 262144],
    costs: &[u16; 256],
    lengths: &[u16; 256],
    theirs: &[u8; 262144],
    verdicts: &mut [Verdict; 256],
) {
    for k in 0..256 {
        judge(
            verdicts,
            k,
            agrees_break(tables, tried, least, words, costs, lengths, theirs, k),
        );
    }
}

// What is not known of a pair cannot be compared.
pub fn leave_open(least: &[u16; 256], verdicts: &mut [Verdict; 256]) {
    for (k, v) in verdicts.iter_mut().enumerate() {
        if *v == Verdict::Same && least[k] == UNKNOWN {
            *v = Verdict::Open;
        }
    }
}

// How many pairs of state q are reached.
fn members(dist: &[u16; 256], q: usize) -> u32
    requires { q < 32 }
{
    dist[q * 8..q * 8 + 8]
        .iter()
        .filter(|d| **d < UNREACHED)
        .count() as u32
}

fn counted(sizes: &[u32; 128], dist: &[u16; 256], q: usize) -> bool
    requires { q < 32 }
{
    sizes[q] == members(dist, q)
}

// The size of a state's set counts for its pair with lookahead 0.
pub fn by_sizes(sizes: &[u32; 128], dist: &[u16; 256], verdicts: &mut [Verdict; 256]) {
    for q in 0..32 {
        judge(verdicts, q * 8, counted(sizes, dist, q));
    }
}

// How many cells are below a mark.
pub fn below(cells: &[u16; 256], mark: u16) -> usize
    ensures { result ≤ 256 }
{
    cells.iter().filter(|c| **c < mark).count()
}

// How many pairs have the verdict v.
pub fn count(verdicts: &[Verdict; 256], v: Verdict) -> usize
    ensures { result ≤ 256 }
{
    verdicts.iter().filter(|x| **x == v).count()
}
