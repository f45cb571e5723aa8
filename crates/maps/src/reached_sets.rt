// The sets: for each state the reached lookaheads, and how many they are.
ghost use Rattle.std.specs.Prelude.{Ok, ◌≡◌, ◌≤◌, ◌<◌, length};
ghost use Rattle.number.specs.Lent.{over, firsts};
ghost use Rattle.book.specs.TablesLaws.{Accepted};
ghost use Rattle.maps.specs.Admitted.{Gathered};
ghost use Rattle.work.specs.Work.{work_cells, cleared};
ghost use Rattle.maps.specs.Maps.{Gathers};
ghost use Rattle.maps.specs.Reached.{mask_in, size_in};

use crate::admission::admit_sets;
use crate::start_distances::distances_in;
use book::Sizes;
use number::Refusal;
use sets::{members, size};
use walk::UNREACHED;

// The reached lookaheads of state q, long ones too.
pub fn mask_of(dist: &[u16], t: usize, q: usize) -> u32
    requires { (length dist.now ≡ 4096) × (q < 128) × (t ≤ 32) }
    ensures { result ≡ mask_in dist.now t q }
{
    let start = q * 32;
    let end = start + t;
    members(&dist[start..end], UNREACHED)
}

// Writes the sets of the first s states, and how many lookaheads are in each.
fn write_sets(dist: &[u16], s: usize, t: usize, masks: &mut [u32], sizes: &mut [u32])
    requires dist_len { (length dist.now ≡ 4096) × (s ≤ 128) × (t ≤ 32) }
    requires s_in_bounds { (s ≤ length masks.old) × (s ≤ length sizes.old) }
    ensures masks_after { masks.new ≡ over (firsts (mask_in dist.now t) s) masks.old }
    ensures sizes_after { sizes.new ≡ over (firsts (size_in dist.now t) s) sizes.old }
{
    for q in 0..s {
        let mask = mask_of(dist, t, q);
        masks[q] = mask;
        sizes[q] = size(mask);
    }
}

// The sets of an accepted book, in room that is enough.
fn gather(cells: &[u16], d: Sizes, work: &mut [u16], masks: &mut [u32], sizes: &mut [u32]) -> usize
    requires accepted { Accepted d cells.now }
    requires d_in_bounds { (work_cells d ≤ length work.old) × (d.s ≤ length masks.old) × (d.s ≤ length sizes.old) }
    ensures gathered { Gathered cells.now d masks.old sizes.old (Ok result) (masks.new, sizes.new) }
    ensures work_after { work.new ≡ cleared d work.old }
{
    let mut dist = [UNREACHED; 4096];
    distances_in(cells, d, work, &mut dist);
    write_sets(&dist, d.s, d.t, masks, sizes);
    d.s
}

// The sets of a book that was checked.
fn sets_of(
    cells: &[u16],
    d: Sizes,
    work: &mut [u16],
    masks: &mut [u32],
    sizes: &mut [u32],
) -> Result<usize, Refusal>
    requires { Accepted d cells.now }
    ensures { Gathers cells.now work.old masks.old sizes.old (result, (work.new, (masks.new, sizes.new))) }
{
    admit_sets(d, work.len(), masks.len(), sizes.len())?;
    Ok(gather(cells, d, work, masks, sizes))
}

// Writes S sets, and beside each how many lookaheads are in it; says how many sets.
pub fn sets(
    cells: &[u16],
    work: &mut [u16],
    masks: &mut [u32],
    sizes: &mut [u32],
) -> Result<usize, Refusal>
    ensures { Gathers cells.now work.old masks.old sizes.old (result, (work.new, (masks.new, sizes.new))) }
{
    let d = book::check(cells)?;
    sets_of(cells, d, work, masks, sizes)
}
