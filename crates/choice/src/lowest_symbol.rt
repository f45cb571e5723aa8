// The choice of one symbol: the lowest by rank with which the stack completes.
ghost use Rattle.std.specs.Prelude.{true, false, ◌≡◌, ◌≤◌, ◌<◌};
ghost use Rattle.book.specs.Order.{place_in, Arranged};
ghost use Rattle.book.specs.Tables.{tables_of};
ghost use Rattle.walk.specs.Ends.{end_cost};
ghost use Rattle.walk.specs.Scale.{plain};
ghost use Rattle.layers.specs.Crossing.{claim_in, Usable};
ghost use Rattle.layers.specs.Layer.{entry_in, layer_in};
ghost use Rattle.search.specs.Ends.{Layered};
ghost use Rattle.search.specs.Search.{Stack};
ghost use Rattle.waiting.specs.Pending.{Pends};
ghost use Rattle.search.specs.Settle.{SearchRoom};
ghost use Rattle.choice.specs.Choice.{Completing, LowestBy};

use book::Sizes;
use search::search_with;

// Whether the terminal a is a symbol, not the end mark, under which the stack completes within r.
fn completes(
    cells: &[u16],
    d: Sizes,
    table: &[u16],
    rows: &[u8; 4096],
    togo: &[u16; 4096],
    due: &[u16],
    len: usize,
    left: usize,
    pending: &[u8],
    stack: &[u16],
    a: usize,
    r: u16,
    values: &mut [u16; 4096],
    on: &mut [u8; 257],
    next: &mut [u16; 4096],
    next_on: &mut [u8; 257],
    events: &mut [u16; 33824],
    done: &mut [u16; 1024],
) -> bool
    requires usable { Usable plain d cells.now table.now rows.now }
    requires a_lt_t { (a < d.t) × (r ≤ plain.limit) }
    requires layered { Layered d due.now len left × Stack d.s stack.now }
    requires pends { Pends (tables_of cells.now) pending.now }
    requires search_room { SearchRoom values.old next.old events.old done.old }
    ensures search_room_2 { SearchRoom values.new next.new events.new done.new }
    ensures le_a { result ≡ true → (1 ≤ a) × Completing plain (tables_of cells.now) (claim_in d table.now) (end_cost (tables_of cells.now) left len (entry_in togo.now) (layer_in due.now)) stack.now r a }
    ensures fact { result ≡ false → 1 ≤ a → Completing plain (tables_of cells.now) (claim_in d table.now) (end_cost (tables_of cells.now) left len (entry_in togo.now) (layer_in due.now)) stack.now r a → ⊥ }
{
    if a == 0 {
        return false;
    }
    search_with(
        cells, d, table, rows, togo, due, len, left, pending, stack, a, r, values, on, next,
        next_on, events, done,
    )
    .is_some()
}

// The symbol of the lowest rank under which the stack completes within r, or T; the row has the terminals by rising rank.
pub fn lowest(
    cells: &[u16],
    d: Sizes,
    table: &[u16],
    rows: &[u8; 4096],
    togo: &[u16; 4096],
    due: &[u16],
    len: usize,
    left: usize,
    pending: &[u8],
    order: &[u8; 32],
    stack: &[u16],
    r: u16,
    values: &mut [u16; 4096],
    on: &mut [u8; 257],
    next: &mut [u16; 4096],
    next_on: &mut [u8; 257],
    events: &mut [u16; 33824],
    done: &mut [u16; 1024],
) -> usize
    requires usable { Usable plain d cells.now table.now rows.now }
    requires r_le_limit { r ≤ plain.limit }
    requires layered { Layered d due.now len left × Stack d.s stack.now }
    requires pends { Pends (tables_of cells.now) pending.now }
    requires arranged { Arranged d.t order.now }
    requires search_room { SearchRoom values.old next.old events.old done.old }
    ensures search_room_2 { SearchRoom values.new next.new events.new done.new }
    ensures lowest_by { LowestBy (place_in order.now) (Completing plain (tables_of cells.now) (claim_in d table.now) (end_cost (tables_of cells.now) left len (entry_in togo.now) (layer_in due.now)) stack.now r) d.t result }
{
    for k in 0..d.t {
        let a = order[k] as usize;
        if completes(
            cells, d, table, rows, togo, due, len, left, pending, stack, a, r, values, on, next,
            next_on, events, done,
        ) {
            return a;
        }
    }
    d.t
}
