// The run, symbol by symbol.
ghost use Rattle.std.specs.Prelude.{[], ◌∷◌, ◌≡◌, ◌≤◌, ◌<◌, length};
ghost use Rattle.book.specs.Tables.{tables_of};
ghost use Rattle.book.specs.TablesLaws.{Accepted, Holds};
ghost use Rattle.machine.specs.Run.{runs, stack_left, sound_prefix};
ghost use Rattle.machine.specs.Stack.{stack_of, StackIn, entering, Fed, RanTo};

use crate::looks::stop_at;
use crate::reductions::reduce;
use crate::{DEPTH, Ending, Entered, Paused};
use book::Sizes;
use forms::{PLAIN, plain_cells, plain_sizes};

// Zeros above the stack.
fn clear(stack: &mut [u16], depth: usize)
    requires { (depth ≤ 1024) × (1024 ≤ length stack.old) }
    ensures { stack.new ≡ stack_left (stack_of stack.old depth) stack.old }
{
    stack[depth..DEPTH].fill(0);
}

// Reduces before a symbol of the sentence and shifts it.
pub fn take_in(
    cells: &[u16],
    d: Sizes,
    stack: &mut [u16],
    depth: usize,
    a: u16,
    taken: usize,
) -> Entered
    requires holds { Holds d cells.now }
    requires stack_in { StackIn d.s stack.old depth }
    requires a_lt_t { a < d.t }
    ensures { Fed d.s stack.old stack.new (entering (tables_of cells.now) a taken (stack_of stack.old depth)) result }
{
    match reduce(cells, d, stack, depth, a, taken) {
        Paused::Ended(e, n) => Entered::Ended(e, n),
        Paused::Shift(s, n) => {
            if n >= DEPTH {
                return Entered::Ended(Ending::Deep(stop_at(stack, n, a, taken)), n);
            }
            stack[n] = s;
            Entered::Depth(n + 1)
        }
    }
}

// Reduces before the lookahead, when all of the sentence is in.
fn finish(cells: &[u16], d: Sizes, stack: &mut [u16], depth: usize, z: u16, taken: usize) -> Ending
    requires holds { Holds d cells.now }
    requires stack_in { StackIn d.s stack.old depth }
    requires z_lt_t { z < d.t }
    ensures { RanTo (runs (tables_of cells.now) z [] taken (stack_of stack.old depth)) stack.old result stack.new }
{
    match reduce(cells, d, stack, depth, z, taken) {
        Paused::Ended(e, n) => {
            clear(stack, n);
            e
        }
        Paused::Shift(_, n) => {
            let stop = stop_at(stack, n, z, taken);
            clear(stack, n);
            Ending::Passed(stop)
        }
    }
}

// Runs a sentence that was admitted, on plain cells.
pub fn drive(cells: &[u16], d: Sizes, sentence: &[u8], z: u16, stack: &mut [u16]) -> Ending
    requires holds { Holds d cells.now }
    requires sentence_value { sound_prefix d.t sentence.now ≡ length sentence.now }
    requires z_lt_t { z < d.t }
    requires in_bounds { 1024 ≤ length stack.old }
    ensures { RanTo (runs (tables_of cells.now) z sentence.now 0 (0 ∷ [])) stack.old result stack.new }
{
    stack[0] = 0;
    let mut depth: usize = 1;
    for (taken, a) in sentence.iter().enumerate() {
        match take_in(cells, d, stack, depth, *a as u16, taken) {
            Entered::Ended(e, n) => {
                clear(stack, n);
                return e;
            }
            Entered::Depth(n) => depth = n,
        }
    }
    finish(cells, d, stack, depth, z, sentence.len())
}

// .. on the cells of a book of any form.
pub fn drive_book(cells: &[u16], d: Sizes, sentence: &[u8], z: u16, stack: &mut [u16]) -> Ending
    requires accepted { Accepted d cells.now }
    requires sentence_value { sound_prefix d.t sentence.now ≡ length sentence.now }
    requires z_lt_t { z < d.t }
    requires in_bounds { 1024 ≤ length stack.old }
    ensures { RanTo (runs (tables_of cells.now) z sentence.now 0 (0 ∷ [])) stack.old result stack.new }
{
    let mut plain = [0u16; PLAIN];
    let n = plain_cells(cells, d, &mut plain);
    drive(&plain[..n], plain_sizes(d), sentence, z, stack)
}
