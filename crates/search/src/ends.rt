// What it costs to be done from a state over the part of a stack that is kept.
ghost use Rattle.std.specs.Prelude.{cond, reverse, ◌≡◌, ◌+◌, ◌-◌, ◌*◌, ◌<◌, min, get_or, take, drop};
ghost use Rattle.book.specs.Tables.{tables_of};
ghost use Rattle.book.specs.TablesLaws.{Holds};
ghost use Rattle.walk.specs.Ends.{bare, end_cost};
ghost use Rattle.layers.specs.Layer.{entry_in, layer_in};
ghost use Rattle.search.specs.Ends.{Layered, Kept};

use book::{Sizes, goto_at};

// Whether, with n of the kept states taken off, no state is left, or the one on top has no goto under `left`.
fn bare_at(cells: &[u16], d: Sizes, left: usize, stack: &[u16], kept: usize, n: usize) -> bool
    requires holds { Holds d cells.now }
    requires left_lt_n { (left < d.n) × Kept d.s stack.now kept }
    ensures { result ≡ bare (tables_of cells.now) left (drop n (reverse (take kept stack.now))) }
{
    if n >= kept {
        return true;
    }
    let q = stack[kept - 1 - n] as usize;
    goto_at(cells, d, q, left) == 0
}

// A cost, or what cell i of layer m has if that is less and the reduction that the layer leads to breaks.
fn lesser_end(
    cells: &[u16],
    d: Sizes,
    due: &[u16],
    len: usize,
    left: usize,
    stack: &[u16],
    kept: usize,
    i: usize,
    m: usize,
    cost: u16,
) -> u16
    requires holds { Holds d cells.now }
    requires layered { Layered d due.now len left × Kept d.s stack.now kept }
    requires i_bound { (i < 4096) × (m < len) }
    ensures { result ≡ cond (bare (tables_of cells.now) left (drop (len - 1 - m) (reverse (take kept stack.now)))) (min (get_or due.now (m * 4096 + i) 0) cost) cost }
{
    let v = due[m * 4096 + i];
    if v >= cost {
        return cost;
    }
    if bare_at(cells, d, left, stack, kept, len - 1 - m) {
        v
    } else {
        cost
    }
}

// The cost to go from g under c over the first `kept` states: what the table has, or a layer whose reduction breaks.
pub fn cost_to_go(
    cells: &[u16],
    d: Sizes,
    togo: &[u16; 4096],
    due: &[u16],
    len: usize,
    left: usize,
    stack: &[u16],
    kept: usize,
    g: usize,
    c: usize,
) -> u16
    requires holds { Holds d cells.now }
    requires layered { Layered d due.now len left × Kept d.s stack.now kept }
    requires g_bound { (g < 128) × (c < 32) }
    ensures { result ≡ end_cost (tables_of cells.now) left len (entry_in togo.now) (layer_in due.now) (reverse (take kept stack.now)) g c }
{
    let i = g * 32 + c;
    let mut cost = togo[i];
    for m in 0..len {
        cost = lesser_end(cells, d, due, len, left, stack, kept, i, m, cost);
    }
    cost
}
