// One book: the library's answers compared with the second finder's.
ghost use Rattle.std.specs.Prelude.{◌≤◌};

use crate::verdicts::{self, Verdict};
use crate::wrong::{self, Wrong};
use crate::{answers, failing_pairs, pops, sentences, tables};

// How many pairs were compared, how many of them differ, and how many could not be compared.
#[derive(Clone, Copy, Default)]
pub struct Tally {
    pub compared: usize,
    pub other: usize,
    pub open: usize,
}

// The second finder's answers: the least lengths of sentences that were tried, those sentences, what lies over each pair, and the
// distances. Answers a length: all shorter sentences were tried.
fn second(
    tables: &[u16; 768],
    t: usize,
    least: &mut [u16; 256],
    words: &mut [u8; 262144],
    over: &mut [u16; 65536],
    dist: &mut [u16; 256],
) -> usize
    requires { (1 ≤ t) × (t ≤ 8) }
{
    if !pops::distances(tables, t, over, dist) {
        trial::text(b" unsettled");
    }
    sentences::try_all(tables, false, t, least, words)
}

fn tell_second(tried: usize, least: &[u16; 256], dist: &[u16; 256]) {
    trial::label(b": reached ", verdicts::below(dist, 1002));
    trial::label(b", by sentences of fewer than ", tried);
    trial::label(b" symbols ", verdicts::below(least, 1001));
}

// The library's answers, one of them changed as what says, beside the second finder's.
fn compare(
    cells: &[u16],
    tables: &[u16; 768],
    s: usize,
    t: usize,
    tried: usize,
    least: &[u16; 256],
    words: &[u8; 262144],
    dist: &[u16; 256],
    what: Wrong,
) -> [Verdict; 256] {
    let mut map = [0u16; 256];
    let mut lengths = [0u16; 256];
    let mut theirs = [0u8; 262144];
    let mut masks = [0u32; 128];
    let mut sizes = [0u32; 128];
    answers::pairs(cells, s, t, &mut map, &mut lengths, &mut theirs);
    answers::sets(cells, &mut masks, &mut sizes);
    wrong::change(
        what,
        &mut map,
        &mut lengths,
        &mut theirs,
        &mut masks,
        &mut sizes,
    );
    let mut all = verdicts::begin(s, t, least);
    verdicts::by_pairs(
        tables, tried, least, words, dist, &map, &lengths, &theirs, &masks, &mut all,
    );
    verdicts::by_sizes(&sizes, dist, &mut all);
    all
}

fn counts(all: &[Verdict; 256]) -> Tally {
    let same = verdicts::count(all, Verdict::Same);
    let other = verdicts::count(all, Verdict::Other);
    Tally {
        compared: same + other,
        other,
        open: verdicts::count(all, Verdict::Open),
    }
}

pub fn tell(r: Tally) {
    trial::label(b" ", r.compared);
    trial::label(b" pairs compared, ", r.other);
    trial::label(b" differences, ", r.open);
    trial::text(b" undecided\n");
}

// The verdict on each pair.
fn all_pairs(cells: &[u16], tables: &[u16; 768], s: usize, t: usize, what: Wrong) -> [Verdict; 256]
    requires { (1 ≤ t) × (t ≤ 8) }
{
    let mut least = [sentences::NONE; 256];
    let mut words = [0u8; 262144];
    let mut over = [pops::UNREACHED; 65536];
    let mut dist = [pops::UNREACHED; 256];
    let tried = second(tables, t, &mut least, &mut words, &mut over, &mut dist);
    tell_second(tried, &least, &dist);
    let mut all = compare(cells, tables, s, t, tried, &least, &words, &dist, what);
    failing_pairs::compare(
        cells, tables, s, t, &over, &dist, &mut least, &mut words, what, &mut all,
    );
    all
}

fn of_sizes(cells: &[u16], t: usize, n: usize, s: usize, p: usize, what: Wrong) -> Tally
    requires { (1 ≤ t) × (t ≤ 8) × (s ≤ 32) × (p ≤ 32) }
{
    let tables = tables::tables_of(cells, t, n, s, p);
    let all = all_pairs(cells, &tables, s, t, what);
    trial::text(b":");
    let r = counts(&all);
    tell(r);
    r
}

fn too_large() -> Tally {
    trial::text(b" too large\n");
    Tally::default()
}

// A book, and which of the library's answers is changed before it is compared.
pub fn book(cells: &[u16], what: Wrong) -> Tally {
    let t = usize::from(tables::number_at(cells, 1));
    let n = usize::from(tables::number_at(cells, 2));
    let s = usize::from(tables::number_at(cells, 3));
    let p = usize::from(tables::number_at(cells, 4));
    trial::label(b" terminals ", t);
    trial::label(b" nonterminals ", n);
    trial::label(b" states ", s);
    trial::label(b" productions ", p);
    if t == 0 || t > 8 || n > 8 || s > 32 || p > 32 {
        return too_large();
    }
    of_sizes(cells, t, n, s, p, what)
}
