// The sentences of all pairs: of those that reach each pair, or of those with which its reduction breaks.
ghost use Rattle.std.specs.Prelude.{true, false, ◌≡◌, ◌*◌, ◌≤◌, length};
ghost use Rattle.book.specs.Order.{place_in, Arranged};
ghost use Rattle.book.specs.Tables.{tables_of, rank_of};
ghost use Rattle.book.specs.TablesLaws.{Accepted, Holds};
ghost use Rattle.work.specs.Work.{work_cells, cleared};
ghost use Rattle.sentences.specs.Parts.{AllPut};
ghost use Rattle.sentences.specs.Sentences.{SentencesAs, Sentences, BreakSentences};

use crate::admission::admit;
use crate::costs::costs_in;
use crate::pairs::put_pairs;
use book::Sizes;
use forms::{PLAIN, by_rank, plain_cells, plain_sizes};
use number::Refusal;
use walk::UNREACHED;
use work::{clear, work_cells};

// The sentences of plain cells, the terminals by rank, in room that is enough; answers how many bytes they have.
fn solve_plain(
    cells: &[u16],
    d: Sizes,
    order: &[u8; 32],
    breaks: bool,
    work: &mut [u16],
    map: &mut [u16],
    bytes: &mut [u8],
) -> usize
    requires holds { Holds d cells.now }
    requires arranged { Arranged d.t order.now }
    requires d_in_bounds { (work_cells d ≤ length work.old) × (d.s * d.t ≤ length map.old) × (d.s * d.t * 1002 ≤ length bytes.old) }
    ensures all_put { AllPut breaks (place_in order.now) (tables_of cells.now) d.s d.t map.old bytes.old result (map.new, bytes.new) }
    ensures work_after { work.new ≡ cleared d work.old }
{
    let mut costs = [UNREACHED; 4096];
    costs_in(cells, d, breaks, work, &mut costs);
    let count = put_pairs(cells, d, work, order, breaks, &costs, map, bytes);
    let n = work_cells(d);
    clear(work, n);
    count
}

// .. of an accepted book of any form.
fn solve(
    cells: &[u16],
    d: Sizes,
    breaks: bool,
    work: &mut [u16],
    map: &mut [u16],
    bytes: &mut [u8],
) -> usize
    requires accepted { Accepted d cells.now }
    requires d_in_bounds { (work_cells d ≤ length work.old) × (d.s * d.t ≤ length map.old) × (d.s * d.t * 1002 ≤ length bytes.old) }
    ensures all_put { AllPut breaks (rank_of cells.now) (tables_of cells.now) d.s d.t map.old bytes.old result (map.new, bytes.new) }
    ensures work_after { work.new ≡ cleared d work.old }
{
    let mut plain = [0u16; PLAIN];
    let n = plain_cells(cells, d, &mut plain);
    let mut order = [0u8; 32];
    by_rank(cells, d, &mut order);
    solve_plain(
        &plain[..n],
        plain_sizes(d),
        &order,
        breaks,
        work,
        map,
        bytes,
    )
}

// .. of a book that was checked.
fn sentences_in(
    cells: &[u16],
    d: Sizes,
    breaks: bool,
    work: &mut [u16],
    map: &mut [u16],
    bytes: &mut [u8],
) -> Result<usize, Refusal>
    requires { Accepted d cells.now }
    ensures { SentencesAs breaks cells.now work.old map.old bytes.old (result, (work.new, (map.new, bytes.new))) }
{
    admit(d, work.len(), map.len(), bytes.len())?;
    Ok(solve(cells, d, breaks, work, map, bytes))
}

// .. of either kind, of a book that is checked first.
fn sentences_as(
    cells: &[u16],
    breaks: bool,
    work: &mut [u16],
    map: &mut [u16],
    bytes: &mut [u8],
) -> Result<usize, Refusal>
    ensures { SentencesAs breaks cells.now work.old map.old bytes.old (result, (work.new, (map.new, bytes.new))) }
{
    let d = book::check(cells)?;
    sentences_in(cells, d, breaks, work, map, bytes)
}

// Writes the map, and the sentence of each pair that `find` answers one for; says how many bytes the sentences have.
pub fn sentences(
    cells: &[u16],
    work: &mut [u16],
    map: &mut [u16],
    bytes: &mut [u8],
) -> Result<usize, Refusal>
    ensures { Sentences cells.now work.old map.old bytes.old (result, (work.new, (map.new, bytes.new))) }
{
    sentences_as(cells, false, work, map, bytes)
}

// .. that `find_break` answers one for, and the least lengths of those.
pub fn break_sentences(
    cells: &[u16],
    work: &mut [u16],
    map: &mut [u16],
    bytes: &mut [u8],
) -> Result<usize, Refusal>
    ensures { BreakSentences cells.now work.old map.old bytes.old (result, (work.new, (map.new, bytes.new))) }
{
    sentences_as(cells, true, work, map, bytes)
}
