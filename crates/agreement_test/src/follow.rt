// The machine followed step by step.
ghost use Rattle.std.specs.Prelude.{IfSome, ◌<◌, ◌≤◌};

use crate::tables::{self, Act};

// What the reductions under one symbol come to: the depth of the stack when no more can be done, none where they never end; the states
// that were on top, as a set; and whether the run was followed far enough to know all of these.
#[derive(Clone, Copy)]
pub struct Course {
    pub depth: Option<usize>,
    pub tops: u32,
    pub known: bool,
}

// How many reductions are followed under one symbol.
const MOST: usize = 2000;

fn with(set: u32, q: u16) -> u32 {
    let i = usize::from(q);
    if i < 32 { set | (1u32 << i) } else { set }
}

// Production p on a stack of as many states as depth says: the depth after it, none where it is broken.
fn reduce(tables: &[u16; 768], stack: &mut [u16; 4096], depth: usize, p: u16) -> Option<usize>
    requires { (1 ≤ depth) × (depth < 4096) }
    ensures { IfSome result (λ d. (1 ≤ d) × (d ≤ 4096)) }
{
    let n = tables::length_of(tables, p);
    if depth <= n {
        return None;
    }
    let m = depth - n;
    let q = tables::goto_of(tables, stack[m - 1], tables::left_side(tables, p))?;
    stack[m] = q;
    Some(m + 1)
}

// The depth after a reduction under a, none where there is none.
fn reduced(tables: &[u16; 768], stack: &mut [u16; 4096], depth: usize, a: usize) -> Option<usize>
    requires { (1 ≤ depth) × (depth < 4096) }
    ensures { IfSome result (λ d. (1 ≤ d) × (d ≤ 4096)) }
{
    match tables::action(tables, stack[depth - 1], a) {
        Act::Reduce(p) => reduce(tables, stack, depth, p),
        _ => None,
    }
}

// The depth after a shift of a, none where there is none.
fn shifted(tables: &[u16; 768], stack: &mut [u16; 4096], depth: usize, a: usize) -> Option<usize>
    requires { (1 ≤ depth) × (depth < 4096) }
    ensures { IfSome result (λ d. (1 ≤ d) × (d ≤ 4096)) }
{
    match tables::action(tables, stack[depth - 1], a) {
        Act::Shift(q) => {
            stack[depth] = q;
            Some(depth + 1)
        }
        _ => None,
    }
}

// A moment of a run: the depth of the stack, the top state and the one below it, if there is one.
#[derive(Clone, Copy)]
struct Mark {
    depth: usize,
    top: u16,
    below: Option<u16>,
}

fn mark_at(stack: &[u16; 4096], depth: usize) -> Mark
    requires { (1 ≤ depth) × (depth < 4096) }
{
    let below = if depth == 1 {
        None
    } else {
        Some(stack[depth - 2])
    };
    Mark {
        depth,
        top: stack[depth - 1],
        below,
    }
}

// Whether the run is in a loop: the two states of the mark are on top again, and the lower one was never taken off in between. So
// nothing beneath it was looked at, and what was done since is done again and again.
fn loops(m: Mark, now: Mark) -> bool {
    now.depth >= m.depth && now.top == m.top && now.below == m.below
}

// The mark to go on with: a new one where the lower state of the old may be gone, and from time to time.
fn moved(m: Mark, now: Mark, steps: usize) -> Mark {
    if now.depth < m.depth || steps % 64 == 0 {
        now
    } else {
        m
    }
}

fn unknown(tops: u32) -> Course
    ensures { IfSome result.depth (λ d. (1 ≤ d) × (d < 4096)) }
{
    Course {
        depth: None,
        tops,
        known: false,
    }
}

fn settled(depth: Option<usize>, tops: u32) -> Course
    requires { IfSome depth (λ d. (1 ≤ d) × (d < 4096)) }
    ensures { IfSome result.depth (λ d. (1 ≤ d) × (d < 4096)) }
{
    Course {
        depth,
        tops,
        known: true,
    }
}

// Reduces under a while it can be done.
fn settle(tables: &[u16; 768], stack: &mut [u16; 4096], start: usize, a: usize) -> Course
    requires { (1 ≤ start) × (start < 4096) }
    ensures { IfSome result.depth (λ d. (1 ≤ d) × (d < 4096)) }
{
    let mut depth = start;
    let mut m = mark_at(stack, depth);
    let mut tops = with(0, m.top);
    for steps in 1..=MOST {
        let Some(next) = reduced(tables, stack, depth, a) else {
            return settled(Some(depth), tops);
        };
        if next >= 4096 {
            return unknown(tops);
        }
        depth = next;
        let now = mark_at(stack, depth);
        tops = with(tops, now.top);
        if loops(m, now) {
            return settled(None, tops);
        }
        m = moved(m, now, steps);
    }
    unknown(tops)
}

// Reduces before a symbol of the sentence and shifts it. There is no depth where it is not shifted.
fn take_in(tables: &[u16; 768], stack: &mut [u16; 4096], depth: usize, a: usize) -> Course
    requires { (1 ≤ depth) × (depth < 4096) }
    ensures { IfSome result.depth (λ d. (1 ≤ d) × (d < 4096)) }
{
    let s = settle(tables, stack, depth, a);
    if !s.known {
        return unknown(0);
    }
    let Some(n) = s.depth else {
        return settled(None, 0);
    };
    match shifted(tables, stack, n, a) {
        None => settled(None, 0),
        Some(m) if m < 4096 => settled(Some(m), 0),
        Some(_) => unknown(0),
    }
}

// The state whose reduction under a breaks on a stack on which no more can be done, as a set.
pub fn broken(tables: &[u16; 768], stack: &[u16; 4096], depth: Option<usize>, a: usize) -> u32
    requires { IfSome depth (λ d. (1 ≤ d) × (d < 4096)) }
{
    let Some(d) = depth else {
        return 0;
    };
    let q = stack[d - 1];
    match tables::action(tables, q, a) {
        Act::Reduce(_) => with(0, q),
        _ => 0,
    }
}

// The states that are on top when all of w is in and z is not.
pub fn after(tables: &[u16; 768], stack: &mut [u16; 4096], w: &[u8], z: usize) -> Course
    ensures { IfSome result.depth (λ d. (1 ≤ d) × (d < 4096)) }
{
    stack[0] = 0;
    let mut depth: usize = 1;
    for a in w {
        let s = take_in(tables, stack, depth, *a as usize);
        let Some(d) = s.depth else {
            return s;
        };
        depth = d;
    }
    settle(tables, stack, depth, z)
}
