// The terminals at which a state is left: listed once for a state, before its shifts and gotos.
ghost use Rattle.std.specs.Prelude.{◌≡◌, ◌+◌, ◌≤◌, ◌<◌, length};
ghost use Rattle.layers.specs.Leaving.{TerminalsListed};
ghost use Rattle.layers.specs.Starts.{layer_row};

use crate::starts::layer_row;

// The turn of a, with n in the lists so far; answers how many there are then.
fn list_terminal(
    t: usize,
    rows: &[u8; 4096],
    bound: u16,
    from: &[u16; 4096],
    row: usize,
    a: usize,
    terminals: &mut [u8; 32],
    offsets: &mut [u16; 32],
    costs: &mut [u16; 32],
    n: usize,
) -> usize
    requires t_bound { (t ≤ 32) × (row + t ≤ 4096) × (a < t) }
    requires terminals_listed { TerminalsListed t bound row rows.now from.now a terminals.old offsets.old costs.old n }
    ensures { TerminalsListed t bound row rows.now from.now (a + 1) terminals.new offsets.new costs.new result }
{
    if rows[row + a] == 0 {
        return n;
    }
    let v = from[row + a];
    // Put down before the cost is looked at, so that no jump depends on it: in a full layer it cannot be foreseen.
    terminals[n] = a as u8;
    offsets[n] = (a * t) as u16;
    costs[n] = v;
    if v > bound {
        return n;
    }
    n + 1
}

// The terminals of q that have a cost within the bound and a row that is not passed over, at the front of the lists; answers how many.
pub fn list_terminals(
    t: usize,
    rows: &[u8; 4096],
    bound: u16,
    from: &[u16; 4096],
    q: usize,
    terminals: &mut [u8; 32],
    offsets: &mut [u16; 32],
    costs: &mut [u16; 32],
) -> usize
    requires t_bound { (t ≤ 32) × (q < 128) }
    requires terminals_len { (length terminals.old ≡ 32) × (length offsets.old ≡ 32) × (length costs.old ≡ 32) }
    ensures { TerminalsListed t bound (layer_row q) rows.now from.now t terminals.new offsets.new costs.new result }
{
    let row = layer_row(q);
    let mut n: usize = 0;
    for a in 0..t {
        n = list_terminal(t, rows, bound, from, row, a, terminals, offsets, costs, n);
    }
    n
}
