// What it costs until a reduction breaks, by the states that lie over one another: as many states down as the production is long there is
// no goto, or fewer down the stack begins.
ghost use Rattle.std.specs.Prelude.{◌<◌};

use crate::pops::{UNREACHED, cost_over, cost_to, plus};
use crate::tables::{self, Act};

// The least cost from x on by one state that is pushed over it, and then as `on` says.
fn nearest(over: &[u16; 65536], on: &[u16; 256], x: usize) -> u16
    requires { x < 256 }
{
    let mut v = UNREACHED;
    for y in 0..256 {
        v = v.min(plus(cost_over(over, x, y), cost_to(on, y)));
    }
    v
}

// The costs from one state further down.
fn down(over: &[u16; 65536], on: &[u16; 256]) -> [u16; 256] {
    let mut to = [UNREACHED; 256];
    for (x, v) in to.iter_mut().enumerate() {
        *v = nearest(over, on, x);
    }
    to
}

// The least cost where the stack begins here.
fn from_start(on: &[u16; 256]) -> u16 {
    let mut v = UNREACHED;
    for cost in &on[..8] {
        v = v.min(*cost);
    }
    v
}

// The cost by x, if its state has no goto under the nonterminal a.
fn without(tables: &[u16; 768], a: u16, dist: &[u16; 256], on: &[u16; 256], x: usize) -> u16
    requires { x < 256 }
{
    if tables::goto_of(tables, (x / 8) as u16, a).is_some() {
        return UNREACHED;
    }
    plus(cost_to(dist, x), cost_to(on, x))
}

// The least of these.
fn missing(tables: &[u16; 768], a: u16, dist: &[u16; 256], on: &[u16; 256]) -> u16 {
    let mut v = UNREACHED;
    for x in 0..256 {
        v = v.min(without(tables, a, dist, on, x));
    }
    v
}

// The cost until the reduction of pair k, of n states to the nonterminal a, breaks.
fn cost_of(
    tables: &[u16; 768],
    over: &[u16; 65536],
    dist: &[u16; 256],
    k: usize,
    a: u16,
    n: usize,
) -> u16
    requires { k < 256 }
{
    let mut on = [UNREACHED; 256];
    on[k] = 0;
    let mut v = UNREACHED;
    for _ in 0..n {
        v = v.min(from_start(&on));
        on = down(over, &on);
    }
    v.min(missing(tables, a, dist, &on))
}

// The cost until pair k fails: until it is reached, where its action is error, or until its reduction breaks.
fn cost_at(tables: &[u16; 768], over: &[u16; 65536], dist: &[u16; 256], k: usize) -> u16
    requires { k < 256 }
{
    match tables::action_of(tables, k) {
        Act::Error => cost_to(dist, k),
        Act::Reduce(p) => {
            let a = tables::left_side(tables, p);
            cost_of(tables, over, dist, k, a, tables::length_of(tables, p))
        }
        _ => UNREACHED,
    }
}

pub fn costs(tables: &[u16; 768], over: &[u16; 65536], dist: &[u16; 256], to: &mut [u16; 256]) {
    for (k, v) in to.iter_mut().enumerate() {
        *v = cost_at(tables, over, dist, k);
    }
}
