// The layers from some starts, and the table of breaks lowered to them.
ghost use Rattle.std.specs.Prelude.{◌≡◌, ℕ, ◌≤◌, ◌<◌, length};
ghost use Rattle.book.specs.Tables.{tables_of};
ghost use Rattle.book.specs.TablesLaws.{Holds};
ghost use Rattle.walk.specs.Scale.{plain, unreached};
ghost use Rattle.layers.specs.Crossing.{claim_in, Usable};
ghost use Rattle.layers.specs.Layer.{Sized, entry_in, value_in, Lengthened};
ghost use Rattle.layers.specs.States.{flag_in, Listed};
ghost use Rattle.layers.specs.Step.{TableStep, Upto};
ghost use Rattle.lengths.specs.Lengths.{LayerEnding, Turn, LastFailing};
ghost use Rattle.lengths.specs.Starts.{Ending};

use crate::Missing;
use crate::reduction::reduces;
use book::Sizes;
use crossings::lower;
use layers::{count_on, lengthen, state_on};
use walk::UNREACHED;

// Lowers the table to v at (s, z), which costs v after m transitions, if its reduction breaks so.
fn lower_pair(
    cells: &[u16],
    d: Sizes,
    missing: Missing,
    m: usize,
    s: usize,
    z: usize,
    v: u16,
    to: &mut [u16; 4096],
)
    requires holds { Holds d cells.now }
    requires m_bound { (m ≤ 32) × (s < d.s) × (z < d.t) × (length to.old ≡ 4096) }
    ensures to_len { length to.new ≡ 4096 }
    ensures table_step { TableStep plain (Turn (LayerEnding plain missing (tables_of cells.now) m (λ q j. v)) s z) (entry_in to.old) (entry_in to.new) }
{
    if v >= UNREACHED {
        return;
    }
    if !reduces(cells, d, missing, m, s, z) {
        return;
    }
    lower(to, s * 32 + z, v);
}

// The pairs of a state that is on.
fn lower_state(
    cells: &[u16],
    d: Sizes,
    missing: Missing,
    m: usize,
    values: &[u16; 4096],
    flags: &[u8; 257],
    s: usize,
    to: &mut [u16; 4096],
)
    requires holds { Holds d cells.now }
    requires m_bound { (m ≤ 32) × (s < d.s) × (length to.old ≡ 4096) × ¬ (flag_in flags.now s ≡ 0) }
    ensures to_len { length to.new ≡ 4096 }
    ensures table_step { TableStep plain (Upto (Turn (LayerEnding plain missing (tables_of cells.now) m (value_in plain values.now flags.now)) s) d.t) (entry_in to.old) (entry_in to.new) }
{
    let row = s * 32;
    for z in 0..d.t {
        lower_pair(cells, d, missing, m, s, z, values[row + z], to);
    }
}

// All pairs of a layer of m transitions that break so.
fn lower_layer(
    cells: &[u16],
    d: Sizes,
    missing: Missing,
    m: usize,
    values: &[u16; 4096],
    flags: &[u8; 257],
    to: &mut [u16; 4096],
)
    requires holds { Holds d cells.now }
    requires m_bound { (m ≤ 32) × Listed d.s flags.now × (length to.old ≡ 4096) }
    ensures to_len { length to.new ≡ 4096 }
    ensures table_step { TableStep plain (LayerEnding plain missing (tables_of cells.now) m (value_in plain values.now flags.now)) (entry_in to.old) (entry_in to.new) }
{
    for i in 0..count_on(flags) {
        lower_state(cells, d, missing, m, values, flags, state_on(flags, i), to);
    }
}

// The layer after one transition more, in place of the layer. The other two arrays are its own while it runs.
fn longer_layer(
    cells: &[u16],
    d: Sizes,
    table: &[u16],
    rows: &[u8; 4096],
    values: &mut [u16; 4096],
    flags: &mut [u8; 257],
    next: &mut [u16; 4096],
    next_flags: &mut [u8; 257],
)
    requires usable { Usable plain d cells.now table.now rows.now }
    requires listed { Listed d.s flags.old × (length next.old ≡ 4096) }
    ensures sized { Sized d.s values.new flags.new × (length next.new ≡ 4096) }
    ensures lengthened { Lengthened plain (tables_of cells.now) (claim_in d table.now) (value_in plain values.old flags.old) (value_in plain values.new flags.new) }
{
    lengthen(cells, d, table, rows, values, flags, next, next_flags);
    *values = *next;
    *flags = *next_flags;
}

// From the layer of no transitions: all layers up to the last after which a production breaks so, or to one in which nothing is on.
pub fn lower_layers(
    cells: &[u16],
    d: Sizes,
    table: &[u16],
    rows: &[u8; 4096],
    missing: Missing,
    last: usize,
    values: &mut [u16; 4096],
    flags: &mut [u8; 257],
    next: &mut [u16; 4096],
    next_flags: &mut [u8; 257],
    to: &mut [u16; 4096],
)
    requires usable { Usable plain d cells.now table.now rows.now }
    requires last_failing { LastFailing missing (tables_of cells.now) d.p last }
    requires sized { Sized d.s values.old flags.old × ((q z : ℕ) → z < (tables_of cells.now).terminals → value_in plain values.old flags.old q z ≤ unreached plain) }
    requires next_len { (length next.old ≡ 4096) × (length to.old ≡ 4096) }
    ensures values_len { (length values.new ≡ 4096) × (length next.new ≡ 4096) × (length to.new ≡ 4096) }
    ensures table_step { TableStep plain (λ s z w. (m : ℕ) × Ending plain (tables_of cells.now) (claim_in d table.now) missing (value_in plain values.old flags.old) m s z w) (entry_in to.old) (entry_in to.new) }
{
    for m in 0..last {
        if count_on(flags) == 0 {
            return;
        }
        lower_layer(cells, d, missing, m, values, flags, to);
        longer_layer(cells, d, table, rows, values, flags, next, next_flags);
    }
    lower_layer(cells, d, missing, last, values, flags, to);
}
