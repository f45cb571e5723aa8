// Lists of the second finder's sentences, which the library judges. A list has an entry for each state that fails, in state order, but for one that is left out.
// Their article numbers differ from list to list, which no judgement looks at.
ghost use Rattle.std.specs.Prelude.{IfSome, ◌+◌, ◌<◌, ◌≤◌};

use crate::pops::UNREACHED;
use crate::verdicts::{self, Verdict};
use crate::wrong::{self, Wrong};
use course::Judgement;

// The most bytes of a list, and the most symbols of an entry.
const ROOM: usize = 4096;

const SYMBOLS: u16 = 100;

// That the library refuses a list or finds a fault in it.
#[derive(Clone, Copy, PartialEq, Eq)]
pub struct Fault;

// 0, 127, 128, 16,383, 16,384, 65,535, 65,536 and 2,097,151, each with zeros after it where it has fewer than three bytes.
const ARTICLES: [u8; 24] = [
    0, 0, 0, 127, 0, 0, 128, 1, 0, 255, 127, 0, 128, 128, 1, 255, 255, 3, 128, 128, 4, 255, 255,
    127,
];

// The first pair of state q that has such a sentence.
fn pair_of(least: &[u16; 256], q: usize) -> Option<usize>
    requires { q < 32 }
    ensures { IfSome result (λ k. k < 256) }
{
    for k in q * 8..q * 8 + 8 {
        if least[k] <= SYMBOLS {
            return Some(k);
        }
    }
    None
}

// The pair of state q, if q is not left out.
fn entry_of(least: &[u16; 256], out: Option<usize>, q: usize) -> Option<usize>
    requires { q < 32 }
    ensures { IfSome result (λ k. k < 256) }
{
    if out == Some(q) {
        None
    } else {
        pair_of(least, q)
    }
}

// Its length, at most the most symbols.
fn length_of(least: &[u16; 256], k: usize) -> usize
    requires { k < 256 }
    ensures { result ≤ 100 }
{
    usize::from(least[k]).min(100)
}

fn put_symbols(words: &[u8; 262144], start: usize, n: usize, list: &mut [u8; ROOM], at: usize)
    requires { (start ≤ 261120) × (n ≤ 100) × (at ≤ 3900) }
{
    list[at..at + n].copy_from_slice(&words[start..start + n]);
}

// How many bytes article number k has.
fn article_size(k: usize) -> usize
    ensures { result ≤ 3 }
{
    if k < 2 {
        1
    } else if k < 4 {
        2
    } else {
        3
    }
}

// Article number k. Answers the place after it; a zero from there on is written over by the next entry, or is not of the list.
fn put_article(list: &mut [u8; ROOM], at: usize, k: usize) -> usize
    requires { (at ≤ 3910) × (k < 8) }
    ensures { result ≤ at + 3 }
{
    list[at..at + 3].copy_from_slice(&ARTICLES[3 * k..3 * k + 3]);
    at + article_size(k)
}

// The entry of state q: length, symbols, lookahead, article number. Answers the place after it.
fn put_entry(
    least: &[u16; 256],
    words: &[u8; 262144],
    out: Option<usize>,
    q: usize,
    list: &mut [u8; ROOM],
    at: usize,
) -> usize
    requires { (q < 32) × (at ≤ 3800) }
    ensures { result ≤ at + 105 }
{
    let Some(k) = entry_of(least, out, q) else {
        return at;
    };
    let n = length_of(least, k);
    list[at] = n as u8;
    put_symbols(words, k * 1024, n, list, at + 1);
    list[at + 1 + n] = (k % 8) as u8;
    put_article(list, at + 2 + n, (q + out.unwrap_or(0) % 8) % 8)
}

fn count(least: &[u16; 256], out: Option<usize>) -> u8
    ensures { result ≤ 32 }
{
    let mut n: u8 = 0;
    for q in 0..32 {
        if entry_of(least, out, q).is_some() {
            n += 1;
        }
    }
    n
}

// Answers the length of the list.
fn make(
    least: &[u16; 256],
    words: &[u8; 262144],
    out: Option<usize>,
    list: &mut [u8; ROOM],
) -> usize
    ensures { result ≤ 4096 }
{
    list[0] = count(least, out);
    let mut at: usize = 1;
    for q in 0..32 {
        at = put_entry(least, words, out, q, list, at);
    }
    at
}

fn fails(costs: &[u16; 256], q: usize) -> bool
    requires { q < 32 }
{
    costs[q * 8..q * 8 + 8].iter().any(|c| *c < UNREACHED)
}

fn uncovered(least: &[u16; 256], costs: &[u16; 256], out: Option<usize>, q: usize) -> bool
    requires { q < 32 }
{
    fails(costs, q) && entry_of(least, out, q).is_none()
}

// The lowest state that fails and has no entry.
fn lowest(least: &[u16; 256], costs: &[u16; 256], out: Option<usize>) -> Option<usize>
    ensures { IfSome result (λ q. q < 32) }
{
    for q in 0..32 {
        if uncovered(least, costs, out, q) {
            return Some(q);
        }
    }
    None
}

// The state that the library finds uncovered, none where it calls the list complete.
pub fn state_of(cells: &[u16], list: &[u8]) -> Result<Option<usize>, Fault> {
    let mut work = [0u16; 32768];
    let mut stack = [0u16; 1024];
    match judgement::judge(cells, list, &mut work, &mut stack) {
        Ok(Judgement::Uncovered(s)) => Ok(Some(usize::from(s))),
        Ok(Judgement::Complete) => Ok(None),
        _ => Err(Fault),
    }
}

// Whether the list without the entry of the state is judged as it should.
fn agrees(
    cells: &[u16],
    least: &[u16; 256],
    words: &[u8; 262144],
    costs: &[u16; 256],
    out: Option<usize>,
    what: Wrong,
) -> bool {
    let mut list = [0u8; ROOM];
    let n = make(least, words, out, &mut list);
    let theirs = wrong::judged(what, state_of(cells, &list[..n]));
    theirs == Ok(lowest(least, costs, out))
}

// The whole list counts for pair (0, 0), and that without the entry of state q, of the first eight, for pair (q, 0).
pub fn compare(
    cells: &[u16],
    least: &[u16; 256],
    words: &[u8; 262144],
    costs: &[u16; 256],
    what: Wrong,
    all: &mut [Verdict; 256],
) {
    verdicts::judge(all, 0, agrees(cells, least, words, costs, None, what));
    for q in 0..8 {
        let agree = agrees(cells, least, words, costs, Some(q), Wrong::Nothing);
        verdicts::judge(all, q * 8, agree);
    }
}
