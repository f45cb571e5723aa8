// The nonterminals to which a reduction is ahead of a state, as bits of a mask: where there is none, no layers are made.
ghost use Rattle.std.specs.Prelude.{◌≡◌, ℕ, ◌+◌, ◌<◌, length};
ghost use Rattle.book.specs.Tables.{tables_of};
ghost use Rattle.book.specs.TablesLaws.{Holds};
ghost use Rattle.lengths.specs.declared.Missing.TheVariants.{Goto};
ghost use Rattle.lengths.specs.Lengths.{AheadMasks};
ghost use Rattle.lengths.specs.Ahead.{Grown, NoneByAction, NoneByGoto};
ghost use Rattle.lengths.specs.Starts.{Fails};

use book::{Action, Sizes, action_at, goto_at, left_side, production_length};
use positions::longest_of_all;
use sets::insert;

// The mask with the left side of p, if p is m symbols long.
fn by_production(cells: &[u16], d: Sizes, m: usize, p: usize, mask: u32) -> u32
    requires holds { Holds d cells.now }
    requires p_lt_p { p < d.p }
    ensures { Grown (λ X. ¬ Fails (Goto X) (tables_of cells.now) m p) mask result }
{
    if production_length(cells, d, p) as usize != m {
        return mask;
    }
    insert(mask, left_side(cells, d, p) as usize)
}

// .. with what is ahead by the action of q under z: after has the masks of one transition more.
fn by_action(
    cells: &[u16],
    d: Sizes,
    m: usize,
    after: &[u32; 128],
    q: usize,
    z: usize,
    mask: u32,
) -> u32
    requires holds { Holds d cells.now }
    requires q_lt_s { (q < d.s) × (z < d.t) }
    ensures { Grown (NoneByAction (tables_of cells.now) m after.now q z) mask result }
{
    match action_at(cells, d, q, z) {
        Action::Shift(g) => mask | after[g as usize],
        Action::Reduce(p) => by_production(cells, d, m, p as usize, mask),
        Action::Error => mask,
        Action::Accept => mask,
    }
}

fn by_actions(cells: &[u16], d: Sizes, m: usize, after: &[u32; 128], q: usize) -> u32
    requires holds { Holds d cells.now }
    requires q_lt_s { q < d.s }
    ensures { Grown (λ X. (z : ℕ) → z < d.t → NoneByAction (tables_of cells.now) m after.now q z X) 0 result }
{
    let mut mask: u32 = 0;
    for z in 0..d.t {
        mask = by_action(cells, d, m, after, q, z, mask);
    }
    mask
}

// .. by the goto of q under x.
fn by_goto(cells: &[u16], d: Sizes, after: &[u32; 128], q: usize, x: usize, mask: u32) -> u32
    requires holds { Holds d cells.now }
    requires q_lt_s { (q < d.s) × (x < d.n) }
    ensures { Grown (NoneByGoto (tables_of cells.now) after.now q x) mask result }
{
    let target = goto_at(cells, d, q, x);
    if target == 0 {
        return mask;
    }
    mask | after[(target - 1) as usize]
}

fn by_gotos(cells: &[u16], d: Sizes, after: &[u32; 128], q: usize, mask: u32) -> u32
    requires holds { Holds d cells.now }
    requires q_lt_s { q < d.s }
    ensures { Grown (λ X. (x : ℕ) → x < d.n → NoneByGoto (tables_of cells.now) after.now q x X) mask result }
{
    let mut all = mask;
    for x in 0..d.n {
        all = by_goto(cells, d, after, q, x, all);
    }
    all
}

// The masks of m transitions, by those of one more.
fn masks_before(cells: &[u16], d: Sizes, m: usize, after: &[u32; 128], masks: &mut [u32; 128])
    requires holds { Holds d cells.now }
    requires ahead_masks { AheadMasks (tables_of cells.now) (m + 1) d.s after.now }
    requires masks_len { length masks.old ≡ 128 }
    ensures { AheadMasks (tables_of cells.now) m d.s masks.new }
{
    for q in 0..d.s {
        let mask = by_actions(cells, d, m, after, q);
        masks[q] = by_gotos(cells, d, after, q, mask);
    }
}

// The masks at the starts.
pub fn ahead(cells: &[u16], d: Sizes, masks: &mut [u32; 128])
    requires { Holds d cells.now }
    ensures { AheadMasks (tables_of cells.now) 0 d.s masks.new }
{
    *masks = [0; 128];
    let mut after = [0u32; 128];
    for m in (0..longest_of_all(cells, d) + 1).rev() {
        masks_before(cells, d, m, &after, masks);
        after = *masks;
    }
}
