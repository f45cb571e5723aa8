// The lowest pair whose claim exceeds another pair's and one transition from there: the pairs' claims as a layer, and the layer after it.
ghost use Rattle.std.specs.Prelude.{◌≡◌, ℕ, ◌*◌, ◌≤◌, ◌<◌, length, get_or};
ghost use Rattle.book.specs.Tables.{tables_of};
ghost use Rattle.walk.specs.Scale.{plain, unreached};
ghost use Rattle.layers.specs.Crossing.{claim_in, Usable};
ghost use Rattle.layers.specs.Layer.{value_in};
ghost use Rattle.roads.specs.Lowest.{Lowest};
ghost use Rattle.roads.specs.Pairs.{PairsIn, OverLayer, PairExceeds};

use book::Sizes;
use layers::{all_on, lengthen};
use walk::UNREACHED;

// The claims of the pairs as a layer: a row of 32 for each state.
fn as_layer(pairs: &[u16], t: usize, values: &mut [u16; 4096])
    requires { (1 ≤ t) × (t ≤ 32) × (length pairs.now ≤ 128 * t) × (length values.old ≡ 4096) }
    ensures { PairsIn t pairs.now (length pairs.now) values.new }
{
    for (k, pair) in pairs.iter().enumerate() {
        values[k / t * 32 + k % t] = *pair;
    }
}

// The cost of (q, z) in a layer.
fn cost_at(values: &[u16; 4096], flags: &[u8; 257], q: usize, z: usize) -> u16
    requires { (q < 128) × (z < 32) × (length values.now ≡ 4096) × (length flags.now ≡ 257) }
    ensures { result ≡ value_in plain values.now flags.now q z }
{
    if flags[129 + q] == 0 {
        return UNREACHED;
    }
    values[q * 32 + z]
}

// The first pair whose claim is more than its cost in a layer, or the number of pairs.
fn first_over(pairs: &[u16], t: usize, values: &[u16; 4096], flags: &[u8; 257]) -> usize
    requires { (1 ≤ t) × (t ≤ 32) × (length pairs.now ≤ 128 * t) × (length values.now ≡ 4096) × (length flags.now ≡ 257) }
    ensures { Lowest (OverLayer t pairs.now (value_in plain values.now flags.now)) (length pairs.now) result }
{
    for (k, pair) in pairs.iter().enumerate() {
        if cost_at(values, flags, k / t, k % t) < *pair {
            return k;
        }
    }
    pairs.len()
}

// The lowest such pair, or the number of pairs.
pub fn lowest_pair(
    cells: &[u16],
    d: Sizes,
    table: &[u16],
    rows: &[u8; 4096],
    pairs: &[u16],
) -> usize
    requires usable { Usable plain d cells.now table.now rows.now }
    requires pairs_len { (length pairs.now ≡ d.s * d.t) × ((k : ℕ) → get_or pairs.now k 0 ≤ unreached plain) }
    ensures { Lowest (PairExceeds d (tables_of cells.now) (claim_in d table.now) pairs.now) (length pairs.now) result }
{
    let mut values = [UNREACHED; 4096];
    as_layer(pairs, d.t, &mut values);
    let mut flags = [0u8; 257];
    all_on(&mut flags, d.s);
    let mut next = [UNREACHED; 4096];
    let mut next_flags = [0u8; 257];
    lengthen(
        cells,
        d,
        table,
        rows,
        &values,
        &flags,
        &mut next,
        &mut next_flags,
    );
    first_over(pairs, d.t, &next, &next_flags)
}
