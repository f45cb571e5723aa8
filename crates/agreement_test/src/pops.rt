// The second finder's second road: distances by what is taken off the stack, with no bound on a sentence's length.
// - over: the least cost from pair x to a state pushed right over that of x and a lookahead, as a pair;
// - pops: the least cost from pair x until its own state is taken off, by a reduction to nonterminal A that has j states more to take
//   off, with lookahead y; (A, j, y) has number A * 256 + j * 8 + y.
// A cost is a number of symbols; 1,001 stands for more than 1,000, and 1,002 for none.
ghost use Rattle.std.specs.Prelude.{◌<◌, ◌≤◌};

use crate::tables::{self, Act};

pub const UNREACHED: u16 = 1002;

// How many passes are made at most.
const MOST: usize = 1000;

pub fn plus(a: u16, b: u16) -> u16 {
    if a >= UNREACHED || b >= UNREACHED {
        return UNREACHED;
    }
    (a + b).min(1001)
}

pub fn cost_over(over: &[u16; 65536], x: usize, y: usize) -> u16
    requires { (x < 256) × (y < 256) }
{
    over[x * 256 + y]
}

// Lowers a cost. Answers whether it was higher.
fn lower_over(over: &mut [u16; 65536], x: usize, y: usize, v: u16) -> bool
    requires { (x < 256) × (y < 256) }
{
    if over[x * 256 + y] <= v {
        return false;
    }
    over[x * 256 + y] = v;
    true
}

fn cost_of_pop(pops: &[u16; 524288], x: usize, e: usize) -> u16
    requires { (x < 256) × (e < 2048) }
{
    pops[x * 2048 + e]
}

fn lower_pop(pops: &mut [u16; 524288], x: usize, e: usize, v: u16) -> bool
    requires { (x < 256) × (e < 2048) }
{
    if pops[x * 2048 + e] <= v {
        return false;
    }
    pops[x * 2048 + e] = v;
    true
}

pub fn cost_to(dist: &[u16; 256], x: usize) -> u16
    requires { x < 256 }
{
    dist[x]
}

fn lower_to(dist: &mut [u16; 256], x: usize, v: u16) -> bool
    requires { x < 256 }
{
    if dist[x] <= v {
        return false;
    }
    dist[x] = v;
    true
}

// The goto of x's state under the nonterminal a, with lookahead y.
fn go(tables: &[u16; 768], over: &mut [u16; 65536], x: usize, a: usize, y: usize, v: u16) -> bool
    requires { (x < 256) × (a < 8) × (y < 8) }
{
    let Some(q) = tables::goto_of(tables, (x / 8) as u16, a as u16) else {
        return false;
    };
    let q = usize::from(q);
    q < 32 && lower_over(over, x, q * 8 + y, v)
}

// A shift from x to the state q: any lookahead may follow.
fn begin_shift(over: &mut [u16; 65536], x: usize, q: usize, t: usize)
    requires { (x < 256) × (q < 32) × (t ≤ 8) }
{
    for z in 0..t {
        lower_over(over, x, q * 8 + z, 1);
    }
}

// A reduction from x of n states to the nonterminal a.
fn begin_reduction(
    tables: &[u16; 768],
    over: &mut [u16; 65536],
    pops: &mut [u16; 524288],
    x: usize,
    a: usize,
    n: usize,
)
    requires { x < 256 }
{
    if a >= 8 {
        return;
    }
    if n == 0 {
        go(tables, over, x, a, x % 8, 0);
        return;
    }
    if n <= 32 {
        lower_pop(pops, x, a * 256 + (n - 1) * 8 + x % 8, 0);
    }
}

// The one step that begins at x.
fn begin(tables: &[u16; 768], t: usize, over: &mut [u16; 65536], pops: &mut [u16; 524288], x: usize)
    requires { (t ≤ 8) × (x < 256) }
{
    match tables::action_of(tables, x) {
        Act::Shift(q) => {
            let q = usize::from(q);
            if q < 32 {
                begin_shift(over, x, q, t);
            }
        }
        Act::Reduce(p) => {
            let a = usize::from(tables::left_side(tables, p));
            begin_reduction(tables, over, pops, x, a, tables::length_of(tables, p));
        }
        _ => {}
    }
}

fn begin_all(tables: &[u16; 768], t: usize, over: &mut [u16; 65536], pops: &mut [u16; 524288])
    requires { t ≤ 8 }
{
    for x in 0..256 {
        begin(tables, t, over, pops, x);
    }
}

// What lies right over x's state is taken off at cost v: then x's state is next, or the goto is pushed over it.
fn carry(
    tables: &[u16; 768],
    over: &mut [u16; 65536],
    pops: &mut [u16; 524288],
    x: usize,
    e: usize,
    v: u16,
) -> bool
    requires { (x < 256) × (e < 2048) }
{
    if v >= UNREACHED {
        return false;
    }
    if e % 256 >= 8 {
        return lower_pop(pops, x, e - 8, v);
    }
    go(tables, over, x, e / 256, e % 256, v)
}

// Every way to take off y's state, which lies right over x's at cost v.
fn carry_all(
    tables: &[u16; 768],
    over: &mut [u16; 65536],
    pops: &mut [u16; 524288],
    x: usize,
    y: usize,
    v: u16,
) -> bool
    requires { (x < 256) × (y < 256) }
{
    let mut changed = false;
    for e in 0..2048 {
        changed |= carry(tables, over, pops, x, e, plus(v, cost_of_pop(pops, y, e)));
    }
    changed
}

// What follows from y's state over x's.
fn follow(
    tables: &[u16; 768],
    over: &mut [u16; 65536],
    pops: &mut [u16; 524288],
    dist: &mut [u16; 256],
    x: usize,
    y: usize,
) -> bool
    requires { (x < 256) × (y < 256) }
{
    let v = cost_over(over, x, y);
    if v >= UNREACHED {
        return false;
    }
    let nearer = lower_to(dist, y, plus(cost_to(dist, x), v));
    carry_all(tables, over, pops, x, y, v) || nearer
}

fn follow_all(
    tables: &[u16; 768],
    over: &mut [u16; 65536],
    pops: &mut [u16; 524288],
    dist: &mut [u16; 256],
    x: usize,
) -> bool
    requires { x < 256 }
{
    let mut changed = false;
    for y in 0..256 {
        changed |= follow(tables, over, pops, dist, x, y);
    }
    changed
}

// Answers whether anything changed.
fn pass(
    tables: &[u16; 768],
    over: &mut [u16; 65536],
    pops: &mut [u16; 524288],
    dist: &mut [u16; 256],
) -> bool {
    let mut changed = false;
    for x in 0..256 {
        changed |= follow_all(tables, over, pops, dist, x);
    }
    changed
}

// State 0 with every lookahead.
fn start(dist: &mut [u16; 256], t: usize)
    requires { t ≤ 8 }
{
    for z in 0..t {
        lower_to(dist, z, 0);
    }
}

// The distances to all pairs, and the costs of what lies right over each. Answers whether the last pass changed nothing.
pub fn distances(
    tables: &[u16; 768],
    t: usize,
    over: &mut [u16; 65536],
    dist: &mut [u16; 256],
) -> bool
    requires { t ≤ 8 }
{
    let mut pops = [UNREACHED; 524288];
    begin_all(tables, t, over, &mut pops);
    start(dist, t);
    for _ in 0..MOST {
        if !pass(tables, over, &mut pops, dist) {
            return true;
        }
    }
    false
}
