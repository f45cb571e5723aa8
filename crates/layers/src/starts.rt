// Where the rows of a state begin: worked out once for a state, before its terminals.
ghost use Rattle.std.specs.Prelude.{◌≡◌, ◌*◌, ◌≤◌, ◌<◌};
ghost use Rattle.book.specs.RangeLaws.{Small};
ghost use Rattle.layers.specs.Crossing.{crossing_row};
ghost use Rattle.layers.specs.Starts.{layer_row, action_row, goto_row, crossing_rows};

use book::Sizes;

// Where row i begins in a table with rows of this width.
fn row_start(i: usize, width: usize) -> usize
    requires { (i ≤ 128) × (width ≤ 32768) }
    ensures { (result ≡ i * width) × (result ≤ 4194304) }
{
    i * width
}

// How many cells of the crossing table a nonterminal of a state takes: a row for each terminal.
pub fn block(t: usize) -> usize
    requires { t ≤ 32 }
    ensures { (result ≡ t * t) × (result ≤ 1024) }
{
    row_start(t, t)
}

pub fn layer_row(q: usize) -> usize
    requires { q < 128 }
    ensures { result ≡ layer_row q }
{
    row_start(q, 32)
}

pub fn action_row(d: Sizes, q: usize) -> usize
    requires small { Small d }
    requires q_lt_s { q < d.s }
    ensures { result ≡ action_row d q }
{
    5 + 2 * d.p + row_start(q, d.t)
}

pub fn goto_row(d: Sizes, q: usize) -> usize
    requires small { Small d }
    requires q_lt_s { q < d.s }
    ensures { result ≡ goto_row d q }
{
    5 + 2 * d.p + row_start(d.s, d.t) + row_start(q, d.n)
}

pub fn crossing_rows(d: Sizes, q: usize) -> usize
    requires small { Small d }
    requires q_lt_s { q < d.s }
    ensures { (result ≡ crossing_rows d q) × (result ≤ 4194304) }
{
    row_start(q, row_start(d.n, block(d.t)))
}

// Where the row of (q, x, a) begins in the crossing table.
pub fn crossing_row(d: Sizes, q: usize, x: usize, a: usize) -> usize
    requires small { Small d }
    requires q_lt_s { (q < d.s) × (x < d.n) × (a < d.t) }
    ensures { result ≡ crossing_row d q x a }
{
    ((q * d.n + x) * d.t + a) * d.t
}
