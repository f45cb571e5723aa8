// A sentence over its memory: a stack, the costs to go to a shift, and what the search works in.
ghost use Rattle.std.specs.Prelude.{[], ◌∷◌, ◌≡◌, ◌+◌, ◌*◌, ◌≤◌, length, get_or};
ghost use Rattle.book.specs.Order.{place_in, Arranged};
ghost use Rattle.book.specs.Tables.{tables_of};
ghost use Rattle.book.specs.TablesLaws.{Holds};
ghost use Rattle.walk.specs.Choice.{Brings, Guides};
ghost use Rattle.walk.specs.Cost.{Exact};
ghost use Rattle.walk.specs.Ends.{end_cost};
ghost use Rattle.walk.specs.Goal.{Aim};
ghost use Rattle.walk.specs.Scale.{plain};
ghost use Rattle.layers.specs.Crossing.{claim_in};
ghost use Rattle.layers.specs.Layer.{entry_in, layer_in};
ghost use Rattle.layers.specs.Opening.{OpenRows};
ghost use Rattle.crossings.specs.Crossings.{CrossingTable};
ghost use Rattle.search.specs.Ends.{Layered};
ghost use Rattle.choice.specs.Choosing.{Chose};

use book::Sizes;
use choice::choose;
use positions::mark_all;
use walk::UNREACHED;

// The sentence of n symbols to what is aimed at in (s, z), at the front of the buffer. The stack holds the start, and has room for 128 states more a symbol.
fn write_over(
    cells: &[u16],
    d: Sizes,
    table: &[u16],
    rows: &[u8; 4096],
    togo: &[u16; 4096],
    due: &[u16],
    len: usize,
    left: usize,
    order: &[u8; 32],
    breaks: bool,
    s: usize,
    z: usize,
    n: usize,
    stack: &mut [u16],
    buffer: &mut [u8],
)
    requires holds { Holds d cells.now }
    requires crossing_table { CrossingTable plain d cells.now table.now × OpenRows d (tables_of cells.now) rows.now }
    requires layered { Layered d due.now len left × Guides plain (tables_of cells.now) (claim_in d table.now) z (Aim (tables_of cells.now) breaks s z) (end_cost (tables_of cells.now) left len (entry_in togo.now) (layer_in due.now)) }
    requires exact { Exact plain (Brings (tables_of cells.now) z (Aim (tables_of cells.now) breaks s z) (0 ∷ [])) n }
    requires arranged { Arranged d.t order.now }
    requires n_le_limit { (n ≤ plain.limit) × (n ≤ length buffer.old) }
    requires n_in_bounds { (1 + 128 * n ≤ length stack.old) × (get_or stack.old 0 0 ≡ 0) }
    ensures { Chose plain (place_in order.now) (Brings (tables_of cells.now) z (Aim (tables_of cells.now) breaks s z) (0 ∷ [])) n buffer.old buffer.new }
{
    let mut pending = [0u8; 4096];
    mark_all(cells, d, false, &mut pending);
    let mut costs = [UNREACHED; 4096];
    let mut values = [UNREACHED; 4096];
    let mut on = [0u8; 257];
    let mut next = [UNREACHED; 4096];
    let mut next_on = [0u8; 257];
    let mut events = [0u16; 33824];
    let mut done = [UNREACHED; 1024];
    choose(
        cells,
        d,
        table,
        rows,
        togo,
        due,
        len,
        left,
        &pending,
        order,
        breaks,
        s,
        z,
        n,
        stack,
        1,
        &mut costs,
        &mut values,
        &mut on,
        &mut next,
        &mut next_on,
        &mut events,
        &mut done,
        buffer,
    );
}

// A stack for 1,000 symbols: the start, and at most 128 states more for each.
fn long_stack() -> [u16; 129001]
    ensures { (length result ≡ 129001) × (get_or result 0 0 ≡ 0) }
{
    [0u16; 129001]
}

// A stack for 32, which is soon filled.
fn short_stack() -> [u16; 4097]
    ensures { (length result ≡ 4097) × (get_or result 0 0 ≡ 0) }
{
    [0u16; 4097]
}

// The sentence of n symbols, the least that lead from the start to what is aimed at in (s, z), at the front of the buffer.
pub fn write_sentence(
    cells: &[u16],
    d: Sizes,
    table: &[u16],
    rows: &[u8; 4096],
    togo: &[u16; 4096],
    due: &[u16],
    len: usize,
    left: usize,
    order: &[u8; 32],
    breaks: bool,
    s: usize,
    z: usize,
    n: usize,
    buffer: &mut [u8],
)
    requires holds { Holds d cells.now }
    requires crossing_table { CrossingTable plain d cells.now table.now × OpenRows d (tables_of cells.now) rows.now }
    requires layered { Layered d due.now len left × Guides plain (tables_of cells.now) (claim_in d table.now) z (Aim (tables_of cells.now) breaks s z) (end_cost (tables_of cells.now) left len (entry_in togo.now) (layer_in due.now)) }
    requires exact { Exact plain (Brings (tables_of cells.now) z (Aim (tables_of cells.now) breaks s z) (0 ∷ [])) n }
    requires arranged { Arranged d.t order.now }
    requires n_le_limit { (n ≤ plain.limit) × (n ≤ length buffer.old) }
    ensures { Chose plain (place_in order.now) (Brings (tables_of cells.now) z (Aim (tables_of cells.now) breaks s z) (0 ∷ [])) n buffer.old buffer.new }
{
    if n <= 32 {
        let mut stack = short_stack();
        write_over(
            cells, d, table, rows, togo, due, len, left, order, breaks, s, z, n, &mut stack, buffer,
        );
        return;
    }
    let mut stack = long_stack();
    write_over(
        cells, d, table, rows, togo, due, len, left, order, breaks, s, z, n, &mut stack, buffer,
    );
}
