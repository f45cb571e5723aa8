// Whether a sentence reaches its pair within a run's limits.
ghost use Rattle.std.specs.Prelude.{◌≡◌, ℕ, ◌≤◌, ◌<◌, length};
ghost use Rattle.book.specs.Tables.{tables_of};
ghost use Rattle.book.specs.TablesLaws.{Holds};
ghost use Rattle.machine.specs.Run.{sound_prefix};
ghost use Rattle.machine.specs.Stack.{stack_of, StackIn};
ghost use Rattle.within.specs.Within.{comes, reaches_within};

use book::Sizes;
use machine::{DEPTH, Entered, REDUCTIONS, Seen, look, take_in};

// Whether s is on top before z is taken in: now, or after a reduction that the run does.
fn comes(cells: &[u16], d: Sizes, stack: &mut [u16], depth: usize, z: u16, s: u16) -> bool
    requires holds { Holds d cells.now }
    requires stack_in { StackIn d.s stack.old depth }
    requires z_lt_t { z < d.t }
    ensures { (taken : ℕ) → result ≡ comes (tables_of cells.now) z s taken 4096 (stack_of stack.old depth) }
{
    let mut n = depth;
    for _ in 0..REDUCTIONS {
        if stack[n - 1] == s {
            return true;
        }
        match look(cells, d, stack, n, z) {
            Seen::Reduce(m, g) => {
                if m >= DEPTH {
                    return false;
                }
                stack[m] = g;
                n = m + 1;
            }
            _ => return false,
        }
    }
    stack[n - 1] == s
}

// Whether the run of the sentence and z, on plain cells, has at some moment taken in all of the sentence, with s on top. Overwrites the
// stack cells.
pub fn reaches(cells: &[u16], d: Sizes, sentence: &[u8], z: u16, s: u16, stack: &mut [u16]) -> bool
    requires holds { Holds d cells.now }
    requires sentence_value { sound_prefix d.t sentence.now ≡ length sentence.now }
    requires z_lt_t { z < d.t }
    requires in_bounds { 1024 ≤ length stack.old }
    ensures value { result ≡ reaches_within (tables_of cells.now) sentence.now z s }
    ensures stack_len_unchanged { length stack.new ≡ length stack.old }
{
    stack[0] = 0;
    let mut depth: usize = 1;
    for (taken, a) in sentence.iter().enumerate() {
        match take_in(cells, d, stack, depth, *a as u16, taken) {
            Entered::Ended(_, _) => return false,
            Entered::Depth(n) => depth = n,
        }
    }
    comes(cells, d, stack, depth, z, s)
}
