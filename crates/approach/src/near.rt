// The layers of walks to a pair, from none to a number of transitions.
ghost use Rattle.std.specs.Prelude.{◌≡◌, ◌+◌, ◌≤◌, ◌<◌, length};
ghost use Rattle.std.proofs.Math.Seq.{paste};
ghost use Rattle.book.specs.Tables.{tables_of};
ghost use Rattle.walk.specs.Scale.{plain};
ghost use Rattle.layers.specs.Crossing.{claim_in, Usable};
ghost use Rattle.approach.specs.Approach.{LayersTo};

use crate::sooner::sooner;
use book::Sizes;
use distances::only;

// Copies the first n cells of a layer to a place among several.
fn put(layer: &[u16; 4096], n: usize, due: &mut [u16; 131072], at: usize)
    requires { (length layer.now ≡ 4096) × (n ≤ 4096) × (length due.old ≡ 131072) × (at + n ≤ 131072) }
    ensures { due.new ≡ paste due.old at layer.now n }
{
    due[at..at + n].copy_from_slice(&layer[..n]);
}

// The layers of fewer than len transitions to (s, z), one after the other, and that of len.
pub fn layers_to(
    cells: &[u16],
    d: Sizes,
    table: &[u16],
    rows: &[u8; 4096],
    s: usize,
    z: usize,
    len: usize,
    due: &mut [u16; 131072],
    layer: &mut [u16; 4096],
)
    requires usable { Usable plain d cells.now table.now rows.now }
    requires s_lt_s { (s < d.s) × (z < d.t) × (len ≤ 32) }
    requires due_len { length due.old ≡ 131072 }
    ensures { LayersTo plain d (tables_of cells.now) (claim_in d table.now) s z len due.new layer.new }
{
    only(s, z, layer);
    let n = d.s * 32;
    for m in 0..len {
        put(layer, n, due, m * 4096);
        sooner(cells, d, table, rows, layer);
    }
}
