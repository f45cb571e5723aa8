// Which states have a failing pair, and the lowest of them that has no entry.
ghost use Rattle.std.specs.Prelude.{◌≡◌, ◌≤◌, ◌<◌, length};
ghost use Rattle.book.specs.Tables.{tables_of};
ghost use Rattle.book.specs.TablesLaws.{Holds};
ghost use Rattle.layers.specs.Crossing.{room};
ghost use Rattle.crossings.specs.Crossings.{Beyond};
ghost use Rattle.judgement.specs.Coverage.{state_fails, lacks_in, Covered};
ghost use Rattle.judgement.specs.Judgement.{lowest_state};

use book::Sizes;
use course::Judgement;
use crossings::crossings_with;
use failing::{failures, pair_fails};
use layers::open_rows;
use walk::UNREACHED;

// Whether the state has a failing pair.
fn fails(cells: &[u16], d: Sizes, dist: &[u16; 4096], broken: &[u16; 4096], q: usize) -> bool
    requires holds { Holds d cells.now }
    requires q_lt_s { q < d.s }
    ensures { result ≡ state_fails cells.now dist.now broken.now d.t q }
{
    for z in 0..d.t {
        if pair_fails(cells, d, dist, broken, q, z) {
            return true;
        }
    }
    false
}

// Whether the state has a failing pair and no entry.
fn lacks(
    cells: &[u16],
    d: Sizes,
    dist: &[u16; 4096],
    broken: &[u16; 4096],
    places: &[usize; 128],
    q: usize,
) -> bool
    requires holds { Holds d cells.now }
    requires q_lt_s { q < d.s }
    ensures { result ≡ lacks_in (state_fails cells.now dist.now broken.now d.t) places.now q }
{
    if places[q] != 0 {
        return false;
    }
    fails(cells, d, dist, broken, q)
}

fn lowest_lacking(
    cells: &[u16],
    d: Sizes,
    dist: &[u16; 4096],
    broken: &[u16; 4096],
    places: &[usize; 128],
) -> Judgement
    requires { Holds d cells.now }
    ensures { result ≡ lowest_state (lacks_in (state_fails cells.now dist.now broken.now d.t) places.now) d.s 0 }
{
    for q in 0..d.s {
        if lacks(cells, d, dist, broken, places, q) {
            return Judgement::Uncovered(q as u16);
        }
    }
    Judgement::Complete
}

// The judgement of a list without a fault, where the states of its entries have places.
pub fn cover(cells: &[u16], d: Sizes, places: &[usize; 128], work: &mut [u16]) -> Judgement
    requires holds { Holds d cells.now }
    requires d_in_bounds { room d ≤ length work.old }
    ensures covered { Covered (tables_of cells.now) places.now result }
    ensures beyond { Beyond (room d) work.old work.new }
{
    let mut rows = [0u8; 4096];
    open_rows(cells, d, &mut rows);
    let mut dist = [UNREACHED; 4096];
    let mut broken = [UNREACHED; 4096];
    crossings_with(cells, d, work, &rows, &mut dist, &mut broken);
    failures(cells, d, work, &rows, &mut dist, &mut broken);
    lowest_lacking(cells, d, &dist, &broken, places)
}
