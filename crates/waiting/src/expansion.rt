// From one state: every reduction that pops more than was pushed since, into the table of waiting gotos.
ghost use Rattle.std.specs.Prelude.{◌≡◌, ℕ, ◌+◌, ◌≤◌, ◌<◌, length};
ghost use Rattle.book.specs.Tables.{tables_of};
ghost use Rattle.book.specs.TablesLaws.{Holds};
ghost use Rattle.walk.specs.Scale.{plain, long};
ghost use Rattle.walk.specs.Layers.{LayerWhere};
ghost use Rattle.layers.specs.Crossing.{claim_in, Usable};
ghost use Rattle.layers.specs.Layer.{value_in, Scratch};
ghost use Rattle.layers.specs.States.{flag_in, Listed};
ghost use Rattle.layers.specs.Step.{TableStep};
ghost use Rattle.waiting.specs.Waiting.{event_in, Expands, Popped, Reduces, ReducesState, ReducesLayer, ExpandsFrom, Allows};
ghost use Rattle.waiting.specs.Pending.{Pends, Pending};

use crate::events::lower;
use book::{Action, Sizes, action_at, left_side, production_length};
use layers::{begin, count_on, lengthen_within, state_on};
use walk::{LONG, add};

// Production p is reduced under c, m transitions from the state, at the cost w.
fn pop(
    cells: &[u16],
    d: Sizes,
    at: usize,
    m: usize,
    p: usize,
    c: usize,
    w: u16,
    events: &mut [u16; 33824],
)
    requires holds { Holds d cells.now }
    requires p_lt_p { (p < d.p) × (c < d.t) × (at < 32) }
    requires events_len { length events.old ≡ 33824 }
    ensures events_len_2 { length events.new ≡ 33824 }
    ensures table_step { TableStep plain (Popped (tables_of cells.now) at m p c w) (event_in plain events.old) (event_in plain events.new) }
{
    let n = production_length(cells, d, p) as usize;
    if n <= m {
        return;
    }
    let x = left_side(cells, d, p) as usize;
    lower(events, (at + (n - m - 1)) % 32, x, c, w);
}

// The reduction in (q, c), if there is one and the cost is within r.
fn pop_at(
    cells: &[u16],
    d: Sizes,
    at: usize,
    m: usize,
    r: u16,
    q: usize,
    c: usize,
    w: u16,
    events: &mut [u16; 33824],
)
    requires holds { Holds d cells.now }
    requires q_lt_s { (q < d.s) × (c < d.t) × (at < 32) }
    requires events_len { length events.old ≡ 33824 }
    ensures events_len_2 { length events.new ≡ 33824 }
    ensures table_step { TableStep plain (Reduces (tables_of cells.now) at m r q c w) (event_in plain events.old) (event_in plain events.new) }
{
    if w > r {
        return;
    }
    if let Action::Reduce(p) = action_at(cells, d, q, c) {
        pop(cells, d, at, m, p as usize, c, w, events);
    }
}

// The reductions in state q, which is on in a layer, where v was the cost before it.
fn pop_state(
    cells: &[u16],
    d: Sizes,
    at: usize,
    m: usize,
    r: u16,
    v: u16,
    values: &[u16; 4096],
    on: &[u8; 257],
    q: usize,
    events: &mut [u16; 33824],
)
    requires holds { Holds d cells.now }
    requires q_lt_s { (q < d.s) × (at < 32) × (r ≤ long plain) × ¬ (flag_in on.now q ≡ 0) }
    requires events_len { length events.old ≡ 33824 }
    ensures events_len_2 { length events.new ≡ 33824 }
    ensures table_step { TableStep plain (ReducesState plain d (tables_of cells.now) at m r v (value_in plain values.now on.now) q) (event_in plain events.old) (event_in plain events.new) }
{
    let row = q * 32;
    for c in 0..d.t {
        let w = add(v, values[row + c]);
        pop_at(cells, d, at, m, r, q, c, w, events);
    }
}

fn pop_layer(
    cells: &[u16],
    d: Sizes,
    at: usize,
    m: usize,
    r: u16,
    v: u16,
    values: &[u16; 4096],
    on: &[u8; 257],
    events: &mut [u16; 33824],
)
    requires holds { Holds d cells.now }
    requires at_bound { (at < 32) × (r ≤ long plain) × Listed d.s on.now }
    requires events_len { length events.old ≡ 33824 }
    ensures events_len_2 { length events.new ≡ 33824 }
    ensures table_step { TableStep plain (ReducesLayer plain d (tables_of cells.now) at m r v (value_in plain values.now on.now)) (event_in plain events.old) (event_in plain events.new) }
{
    for i in 0..count_on(on) {
        let q = state_on(on, i);
        pop_state(cells, d, at, m, r, v, values, on, q, events);
    }
}

// What is left of r after v: at long every cost is.
fn rest(r: u16, v: u16) -> u16
    requires { r ≤ long plain }
    ensures { (result ≤ long plain) × Allows plain r v result }
{
    if r >= LONG {
        return LONG;
    }
    r.saturating_sub(v)
}

// All that is popped after more than m transitions, where the layer of m is given: each layer is made in the place of the one before
// the last, and only in states from which a reduction may still pop more than was pushed.
fn expand_after(
    cells: &[u16],
    d: Sizes,
    table: &[u16],
    rows: &[u8; 4096],
    pending: &[u8],
    bound: u16,
    at: usize,
    m: usize,
    r: u16,
    v: u16,
    values: &mut [u16; 4096],
    on: &mut [u8; 257],
    next: &mut [u16; 4096],
    next_on: &mut [u8; 257],
    events: &mut [u16; 33824],
)
    requires usable { Usable plain d cells.now table.now rows.now }
    requires at_bound { (at < 32) × (r ≤ long plain) × (bound ≤ long plain) × Allows plain r v bound }
    requires pends { Pends (tables_of cells.now) pending.now }
    requires scratch { Scratch values.old next.old × (length events.old ≡ 33824) × Listed d.s on.old }
    ensures scratch_2 { Scratch values.new next.new × (length events.new ≡ 33824) }
    ensures by_index { (g a : ℕ) → LayerWhere plain (tables_of cells.now) (claim_in d table.now) (Pending pending.now bound) g a m (value_in plain values.old on.old) → TableStep plain (ExpandsFrom plain (tables_of cells.now) (claim_in d table.now) at g a v r (m + 1)) (event_in plain events.old) (event_in plain events.new) }
{
    if m >= 31 {
        return;
    }
    let row = m * 128;
    let end = row + 128;
    lengthen_within(
        cells,
        d,
        table,
        rows,
        bound,
        &pending[row..end],
        values,
        on,
        next,
        next_on,
    );
    if count_on(next_on) == 0 {
        return;
    }
    pop_layer(cells, d, at, m + 1, r, v, next, next_on, events);
    expand_after(
        cells,
        d,
        table,
        rows,
        pending,
        bound,
        at,
        m + 1,
        r,
        v,
        next,
        next_on,
        values,
        on,
        events,
    );
}

// State g on top under a, at the cost v: all that it pops within r, where the rows of `at` are those of the state below it.
pub fn expand(
    cells: &[u16],
    d: Sizes,
    table: &[u16],
    rows: &[u8; 4096],
    pending: &[u8],
    at: usize,
    r: u16,
    g: usize,
    a: usize,
    v: u16,
    values: &mut [u16; 4096],
    on: &mut [u8; 257],
    next: &mut [u16; 4096],
    next_on: &mut [u8; 257],
    events: &mut [u16; 33824],
)
    requires usable { Usable plain d cells.now table.now rows.now }
    requires g_lt_s { (g < d.s) × (a < d.t) × (at < 32) × (r ≤ long plain) }
    requires pends { Pends (tables_of cells.now) pending.now }
    requires scratch { Scratch values.old next.old × (length events.old ≡ 33824) }
    ensures scratch_2 { Scratch values.new next.new × (length events.new ≡ 33824) }
    ensures table_step { TableStep plain (Expands plain (tables_of cells.now) (claim_in d table.now) at g a v r) (event_in plain events.old) (event_in plain events.new) }
{
    pop_at(cells, d, at, 0, r, g, a, v, events);
    if rows[g * 32 + a] == 0 {
        return;
    }
    let bound = rest(r, v);
    begin(values, on, g, a);
    expand_after(
        cells, d, table, rows, pending, bound, at, 0, r, v, values, on, next, next_on, events,
    );
}
