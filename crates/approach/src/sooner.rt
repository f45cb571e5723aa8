// One transition more in front of a layer of walks to a pair.
ghost use Rattle.std.specs.Prelude.{◌*◌, ◌<◌};
ghost use Rattle.book.specs.Tables.{tables_of};
ghost use Rattle.walk.specs.Scale.{plain};
ghost use Rattle.layers.specs.Crossing.{claim_in, Usable};
ghost use Rattle.layers.specs.Layer.{entry_in};
ghost use Rattle.distances.specs.Distances.{distance_in, Bounded};
ghost use Rattle.distances.specs.Pass.{Marked};
ghost use Rattle.approach.specs.Approach.{SoonerAt, SoonerLayer};

use book::Sizes;
use distances::{mark, toward};
use walk::UNREACHED;

// The least that one transition from the state and terminal of cell k makes of a layer.
fn sooner_at(
    cells: &[u16],
    d: Sizes,
    table: &[u16],
    rows: &[u8; 4096],
    layer: &[u16; 4096],
    flags: &[u8; 128],
    k: usize,
) -> u16
    requires usable { Usable plain d cells.now table.now rows.now }
    requires k_bound { k < d.s * 32 }
    requires marked { Marked plain d.t flags.now layer.now }
    ensures { SoonerAt plain (tables_of cells.now) (claim_in d table.now) (distance_in plain layer.now) k result }
{
    let q = k / 32;
    let a = k % 32;
    if a >= d.t {
        return UNREACHED;
    }
    if rows[q * 32 + a] == 0 {
        return UNREACHED;
    }
    toward(cells, d, table, layer, flags, q, a)
}

// A layer of walks to a pair, made that of one transition more.
pub fn sooner(cells: &[u16], d: Sizes, table: &[u16], rows: &[u8; 4096], layer: &mut [u16; 4096])
    requires usable { Usable plain d cells.now table.now rows.now }
    requires bounded { Bounded plain d.t layer.old }
    ensures bounded_2 { Bounded plain d.t layer.new }
    ensures sooner_layer { SoonerLayer plain (tables_of cells.now) (claim_in d table.now) (distance_in plain layer.old) (entry_in layer.new) }
{
    let mut flags = [0u8; 128];
    mark(layer, d.t, &mut flags);
    let old = *layer;
    for k in 0..d.s * 32 {
        layer[k] = sooner_at(cells, d, table, rows, &old, &flags, k);
    }
}
