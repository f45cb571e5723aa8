// One pair: whether any sequence reaches it, or breaks there, and the shortest and first that does.
ghost use Rattle.std.specs.Prelude.{◌≡◌, ◌≤◌, ◌<◌, length};
ghost use Rattle.book.specs.Order.{place_in, Arranged};
ghost use Rattle.book.specs.Tables.{tables_of, rank_of};
ghost use Rattle.book.specs.TablesLaws.{Accepted, Holds};
ghost use Rattle.walk.specs.Scale.{plain};
ghost use Rattle.work.specs.Work.{work_cells, cleared};
ghost use Rattle.finder.specs.Finder.{Answered, FindsAs, Finds, FindsBreak};

use crate::Found;
use crate::admission::admit_pair;
use crate::prepared::answer;
use book::Sizes;
use crossings::crossings;
use forms::{PLAIN, by_rank, plain_cells, plain_sizes};
use layers::open_rows;
use number::Refusal;
use work::{clear, work_cells};

// The answer for plain cells and the terminals by rank, in room that is enough.
fn solve_plain(
    cells: &[u16],
    d: Sizes,
    order: &[u8; 32],
    breaks: bool,
    s: usize,
    z: usize,
    work: &mut [u16],
    buffer: &mut [u8],
) -> Found
    requires holds { Holds d cells.now }
    requires arranged { Arranged d.t order.now }
    requires d_in_bounds { (work_cells d ≤ length work.old) × (s < d.s) × (z < d.t) × (plain.limit ≤ length buffer.old) }
    ensures answered { Answered breaks (place_in order.now) (tables_of cells.now) s z buffer.old result buffer.new }
    ensures work_after { work.new ≡ cleared d work.old }
{
    let mut rows = [0u8; 4096];
    open_rows(cells, d, &mut rows);
    crossings(cells, d, work, &rows);
    let found = answer(cells, d, work, order, breaks, s, z, buffer);
    let n = work_cells(d);
    clear(work, n);
    found
}

// The answer for an accepted book of any form.
fn solve(
    cells: &[u16],
    d: Sizes,
    breaks: bool,
    s: usize,
    z: usize,
    work: &mut [u16],
    buffer: &mut [u8],
) -> Found
    requires accepted { Accepted d cells.now }
    requires d_in_bounds { (work_cells d ≤ length work.old) × (s < d.s) × (z < d.t) × (plain.limit ≤ length buffer.old) }
    ensures answered { Answered breaks (rank_of cells.now) (tables_of cells.now) s z buffer.old result buffer.new }
    ensures work_after { work.new ≡ cleared d work.old }
{
    let mut plain = [0u16; PLAIN];
    let n = plain_cells(cells, d, &mut plain);
    let mut order = [0u8; 32];
    by_rank(cells, d, &mut order);
    solve_plain(
        &plain[..n],
        plain_sizes(d),
        &order,
        breaks,
        s,
        z,
        work,
        buffer,
    )
}

// The answer for a book that was checked.
fn find_in(
    cells: &[u16],
    d: Sizes,
    breaks: bool,
    s: u16,
    z: u16,
    work: &mut [u16],
    buffer: &mut [u8],
) -> Result<Found, Refusal>
    requires { Accepted d cells.now }
    ensures { FindsAs breaks cells.now s z work.old buffer.old (result, (work.new, buffer.new)) }
{
    admit_pair(d, s, z, work.len(), buffer.len())?;
    Ok(solve(cells, d, breaks, s as usize, z as usize, work, buffer))
}

// The answer of either kind for a book that is checked first.
fn find_as(
    cells: &[u16],
    breaks: bool,
    s: u16,
    z: u16,
    work: &mut [u16],
    buffer: &mut [u8],
) -> Result<Found, Refusal>
    ensures { FindsAs breaks cells.now s z work.old buffer.old (result, (work.new, buffer.new)) }
{
    let d = book::check(cells)?;
    find_in(cells, d, breaks, s, z, work, buffer)
}

// What reaches the pair. A sentence is written at the front of the buffer.
pub fn find(
    cells: &[u16],
    s: u16,
    z: u16,
    work: &mut [u16],
    buffer: &mut [u8],
) -> Result<Found, Refusal>
    ensures { Finds cells.now s z work.old buffer.old (result, (work.new, buffer.new)) }
{
    find_as(cells, false, s, z, work, buffer)
}

// With what the reduction of the pair breaks: Unreached if with nothing.
pub fn find_break(
    cells: &[u16],
    s: u16,
    z: u16,
    work: &mut [u16],
    buffer: &mut [u8],
) -> Result<Found, Refusal>
    ensures { FindsBreak cells.now s z work.old buffer.old (result, (work.new, buffer.new)) }
{
    find_as(cells, true, s, z, work, buffer)
}
