// One symbol taken in: the stack right after the machine has shifted it.
ghost use Rattle.std.specs.Prelude.{reverse, ◌≡◌, ◌+◌, ◌≤◌, ◌<◌, length, take};
ghost use Rattle.book.specs.Tables.{tables_of};
ghost use Rattle.walk.specs.Scale.{plain};
ghost use Rattle.walk.specs.Claims.{Closed, Witnessed};
ghost use Rattle.walk.specs.ShiftLaws.{Ready};
ghost use Rattle.layers.specs.Crossing.{claim_in, Usable};
ghost use Rattle.waiting.specs.Pending.{Pends};
ghost use Rattle.search.specs.Settle.{SearchRoom};
ghost use Rattle.choice.specs.Taking.{Stacked, Taken};

use crate::still::still;
use advance::{FAR, nearest, push_to_shift};
use book::Sizes;
use search::search_with;

// The stack is the first depth cells, bottom first, and comes to shift the terminal a; answers the new depth.
pub fn take_in(
    cells: &[u16],
    d: Sizes,
    table: &[u16],
    rows: &[u8; 4096],
    pending: &[u8],
    stack: &mut [u16],
    depth: usize,
    a: usize,
    costs: &mut [u16; 4096],
    values: &mut [u16; 4096],
    on: &mut [u8; 257],
    next: &mut [u16; 4096],
    next_on: &mut [u8; 257],
    events: &mut [u16; 33824],
    done: &mut [u16; 1024],
) -> usize
    requires usable { Usable plain d cells.now table.now rows.now }
    requires a_lt_t { a < d.t }
    requires closed { Closed plain (tables_of cells.now) (claim_in d table.now) × Witnessed plain (tables_of cells.now) (claim_in d table.now) }
    requires stacked { Stacked d.s stack.old depth × (depth + 128 ≤ length stack.old) × Ready (tables_of cells.now) (reverse (take depth stack.old)) a }
    requires pends { Pends (tables_of cells.now) pending.now }
    requires costs_len { (length costs.old ≡ 4096) × SearchRoom values.old next.old events.old done.old }
    ensures costs_len_2 { (length costs.new ≡ 4096) × SearchRoom values.new next.new events.new done.new }
    ensures taken { Taken (tables_of cells.now) a stack.old depth stack.new result }
{
    let mut to = [FAR; 128];
    nearest(cells, d, table, rows, a, &mut to);
    still(&to, d.s, a, costs);
    let Some((kept, g)) = search_with(
        cells,
        d,
        table,
        rows,
        costs,
        &cells[..0],
        0,
        0,
        pending,
        &stack[..depth],
        a,
        0,
        values,
        on,
        next,
        next_on,
        events,
        done,
    ) else {
        return depth;
    };
    stack[kept] = g as u16;
    push_to_shift(cells, d, table, &to, a, stack, kept + 1)
}
