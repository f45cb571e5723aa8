// The sentences of the pairs, one after the other.
ghost use Rattle.std.specs.Prelude.{◌++◌, ◌+◌, ◌*◌, ◌≤◌, ◌<◌, length, take};
ghost use Rattle.number.specs.Number.{written};
ghost use Rattle.book.specs.Order.{place_in, Arranged};
ghost use Rattle.book.specs.Tables.{tables_of};
ghost use Rattle.book.specs.TablesLaws.{Holds};
ghost use Rattle.walk.specs.Answer.{WordsOf};
ghost use Rattle.walk.specs.Cost.{Exact};
ghost use Rattle.walk.specs.Scale.{plain};
ghost use Rattle.crossings.specs.Crossings.{CrossingTable};
ghost use Rattle.finder.specs.Fitting.{Fitting};
ghost use Rattle.text.specs.Put.{Put};
ghost use Rattle.sentences.specs.Parts.{bytes_in, CostTable, PairPut, PairsPut};

use book::Sizes;
use finder::{Found, answer};
use text::put;
use walk::LONG;

// The first n symbols of a sentence, after their number.
fn put_sentence(sentence: &[u8], n: usize, bytes: &mut [u8], at: usize) -> usize
    requires { (n ≤ 1000) × (n ≤ length sentence.now) × (at + 1002 ≤ length bytes.old) }
    ensures put { Put (written n ++ take n sentence.now) bytes.old at bytes.new result }
    ensures upper_bound { result ≤ at + 1002 }
{
    let next = number::write(n as u32, bytes, at);
    put(&sentence[..n], bytes, next)
}

// What the finder found, if that is a sentence.
fn put_found(found: Found, sentence: &[u8], bytes: &mut [u8], at: usize) -> usize
    requires fitting { Fitting found sentence.now }
    requires at_in_bounds { at + 1002 ≤ length bytes.old }
    ensures put { Put (bytes_in found sentence.now) bytes.old at bytes.new result }
    ensures upper_bound { result ≤ at + 1002 }
{
    match found {
        Found::Unreached | Found::Long => at,
        Found::Sentence(n) => put_sentence(sentence, n, bytes, at),
    }
}

// The sentence of (s, z), whose least cost is n; it is looked for only if there is one.
fn put_pair(
    cells: &[u16],
    d: Sizes,
    table: &[u16],
    order: &[u8; 32],
    breaks: bool,
    s: usize,
    z: usize,
    n: u16,
    sentence: &mut [u8],
    bytes: &mut [u8],
    at: usize,
) -> usize
    requires holds { Holds d cells.now }
    requires crossing_table { CrossingTable plain d cells.now table.now }
    requires arranged { Arranged d.t order.now }
    requires s_lt_s { (s < d.s) × (z < d.t) × (1000 ≤ length sentence.old) × (at + 1002 ≤ length bytes.old) }
    requires exact { Exact plain (WordsOf breaks (tables_of cells.now) s z) n }
    ensures pair_put { PairPut breaks (place_in order.now) (tables_of cells.now) s z n bytes.old at bytes.new result }
    ensures upper_bound { result ≤ at + 1002 }
{
    if n >= LONG {
        return at;
    }
    let found = answer(cells, d, table, order, breaks, s, z, sentence);
    put_found(found, sentence, bytes, at)
}

// The map's cell of every pair, and its sentence; answers how many bytes the sentences have.
pub fn put_pairs(
    cells: &[u16],
    d: Sizes,
    table: &[u16],
    order: &[u8; 32],
    breaks: bool,
    costs: &[u16; 4096],
    map: &mut [u16],
    bytes: &mut [u8],
) -> usize
    requires holds { Holds d cells.now }
    requires crossing_table { CrossingTable plain d cells.now table.now }
    requires arranged { Arranged d.t order.now }
    requires cost_table { CostTable breaks d cells.now costs.now }
    requires t_in_bounds { (d.s * d.t ≤ length map.old) × (d.s * d.t * 1002 ≤ length bytes.old) }
    ensures pairs_put { PairsPut breaks (place_in order.now) (tables_of cells.now) d.t (d.s * d.t) map.old bytes.old map.new bytes.new result }
    ensures upper_bound { result ≤ d.s * d.t * 1002 }
{
    let n = d.s * d.t;
    let mut sentence = [0u8; 1000];
    let mut at: usize = 0;
    for i in 0..n {
        let s = i / d.t;
        let z = i % d.t;
        let cost = costs[s * 32 + z];
        map[i] = cost;
        at = put_pair(
            cells,
            d,
            table,
            order,
            breaks,
            s,
            z,
            cost,
            &mut sentence,
            bytes,
            at,
        );
    }
    at
}
