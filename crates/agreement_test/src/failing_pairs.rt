// What fails: the library's answers for reductions that break, and its judgements, compared with the second finder's.
ghost use Rattle.std.specs.Prelude.{◌<◌, ◌≤◌};

use crate::pops::UNREACHED;
use crate::verdicts::{self, Verdict};
use crate::wrong::{self, Wrong};
use crate::{answers, breaking, judged, sentences, tables};

fn below(tables: &[u16; 768], cells: &[u16; 256], mark: u16, k: usize) -> bool
    requires { k < 256 }
{
    tables::reduces(tables, k) && cells[k] < mark
}

// How many pairs that reduce are below a mark.
fn count(tables: &[u16; 768], cells: &[u16; 256], mark: u16) -> usize
    ensures { result ≤ 256 }
{
    let mut n: usize = 0;
    for k in 0..256 {
        if below(tables, cells, mark, k) {
            n += 1;
        }
    }
    n
}

// The library's answers, one of them changed if what says so, beside the second finder's.
fn by_breaks(
    cells: &[u16],
    tables: &[u16; 768],
    s: usize,
    t: usize,
    tried: usize,
    least: &[u16; 256],
    words: &[u8; 262144],
    costs: &[u16; 256],
    what: Wrong,
    all: &mut [Verdict; 256],
) {
    let mut lengths = [0u16; 256];
    let mut theirs = [0u8; 262144];
    answers::breaks(cells, s, t, &mut lengths, &mut theirs);
    wrong::change_break(what, &mut lengths, &mut theirs);
    verdicts::leave_open(least, all);
    verdicts::by_breaks(tables, tried, least, words, costs, &lengths, &theirs, all);
}

fn lists(s: usize) -> usize {
    s.min(8) + 1
}

// The costs until pairs fail, and the sentences with which they do, from those that reach them. Answers a length: all shorter sentences were
// tried.
fn second(
    tables: &[u16; 768],
    t: usize,
    over: &[u16; 65536],
    dist: &[u16; 256],
    least: &mut [u16; 256],
    words: &mut [u8; 262144],
    costs: &mut [u16; 256],
) -> usize
    requires { (1 ≤ t) × (t ≤ 8) }
{
    breaking::costs(tables, over, dist, costs);
    sentences::forget(tables, least);
    sentences::try_all(tables, true, t, least, words)
}

fn tell(tables: &[u16; 768], s: usize, least: &[u16; 256], costs: &[u16; 256]) {
    trial::label(b", breaking ", count(tables, costs, 1002));
    trial::label(b", by sentences ", count(tables, least, 1001));
    trial::label(b", lists ", lists(s));
}

pub fn compare(
    cells: &[u16],
    tables: &[u16; 768],
    s: usize,
    t: usize,
    over: &[u16; 65536],
    dist: &[u16; 256],
    least: &mut [u16; 256],
    words: &mut [u8; 262144],
    what: Wrong,
    all: &mut [Verdict; 256],
)
    requires { (1 ≤ t) × (t ≤ 8) }
{
    let mut costs = [UNREACHED; 256];
    let tried = second(tables, t, over, dist, least, words, &mut costs);
    tell(tables, s, least, &costs);
    by_breaks(cells, tables, s, t, tried, least, words, &costs, what, all);
    judged::compare(cells, least, words, &costs, what, all);
}
