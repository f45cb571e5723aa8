// The sentence, chosen symbol by symbol.
ghost use Rattle.std.specs.Prelude.{◌≡◌, reverse, ◌+◌, ◌*◌, ◌≤◌, length, take};
ghost use Rattle.book.specs.Order.{place_in, Arranged};
ghost use Rattle.book.specs.Tables.{tables_of};
ghost use Rattle.walk.specs.Claims.{Closed, Witnessed};
ghost use Rattle.walk.specs.Scale.{plain};
ghost use Rattle.walk.specs.Cost.{Exact};
ghost use Rattle.walk.specs.Choice.{Brings, Guides};
ghost use Rattle.walk.specs.Ends.{end_cost};
ghost use Rattle.walk.specs.Goal.{Aim};
ghost use Rattle.layers.specs.Crossing.{claim_in, Usable};
ghost use Rattle.layers.specs.Layer.{entry_in, layer_in};
ghost use Rattle.waiting.specs.Pending.{Pends};
ghost use Rattle.search.specs.Ends.{Layered};
ghost use Rattle.search.specs.Settle.{SearchRoom};
ghost use Rattle.choice.specs.Choosing.{Chose};
ghost use Rattle.choice.specs.Taking.{Stacked};

use crate::lowest_symbol::lowest;
use crate::taking::take_in;
use book::Sizes;

// Writes at the front of the buffer the sentence of n symbols that is right for what is aimed at in (s, z), from a start stack, the first depth
// cells, bottom first; its least length is n. The costs and the arrays that the search works in are its own while it runs, whatever they held.
pub fn choose(
    cells: &[u16],
    d: Sizes,
    table: &[u16],
    rows: &[u8; 4096],
    togo: &[u16; 4096],
    due: &[u16],
    len: usize,
    left: usize,
    pending: &[u8],
    order: &[u8; 32],
    breaks: bool,
    s: usize,
    z: usize,
    n: usize,
    stack: &mut [u16],
    mut depth: usize,
    costs: &mut [u16; 4096],
    values: &mut [u16; 4096],
    on: &mut [u8; 257],
    next: &mut [u16; 4096],
    next_on: &mut [u8; 257],
    events: &mut [u16; 33824],
    done: &mut [u16; 1024],
    buffer: &mut [u8],
)
    requires usable { Usable plain d cells.now table.now rows.now }
    requires n_le_limit { (n ≤ plain.limit) × (n ≤ length buffer.old) }
    requires closed { Closed plain (tables_of cells.now) (claim_in d table.now) × Witnessed plain (tables_of cells.now) (claim_in d table.now) }
    requires stacked { Stacked d.s stack.old depth × (depth + 128 * n ≤ length stack.old) }
    requires layered { Layered d due.now len left × Guides plain (tables_of cells.now) (claim_in d table.now) z (Aim (tables_of cells.now) breaks s z) (end_cost (tables_of cells.now) left len (entry_in togo.now) (layer_in due.now)) }
    requires exact { Exact plain (Brings (tables_of cells.now) z (Aim (tables_of cells.now) breaks s z) (reverse (take depth stack.old))) n }
    requires pends { Pends (tables_of cells.now) pending.now }
    requires arranged { Arranged d.t order.now }
    requires costs_len { (length costs.old ≡ 4096) × SearchRoom values.old next.old events.old done.old }
    ensures { Chose plain (place_in order.now) (Brings (tables_of cells.now) z (Aim (tables_of cells.now) breaks s z) (reverse (take depth stack.old))) n buffer.old buffer.new }
{
    for i in 0..n {
        let a = lowest(
            cells,
            d,
            table,
            rows,
            togo,
            due,
            len,
            left,
            pending,
            order,
            &stack[..depth],
            (n - i) as u16,
            values,
            on,
            next,
            next_on,
            events,
            done,
        );
        buffer[i] = a as u8;
        depth = take_in(
            cells, d, table, rows, pending, stack, depth, a, costs, values, on, next, next_on,
            events, done,
        );
    }
}
