// The reductions before a symbol.
ghost use Rattle.std.specs.Prelude.{◌<◌};
ghost use Rattle.book.specs.Tables.{tables_of};
ghost use Rattle.book.specs.TablesLaws.{Holds};
ghost use Rattle.machine.specs.Run.{reducing};
ghost use Rattle.machine.specs.Stack.{stack_of, StackIn, Held};

use crate::looks::turn;
use crate::{Paused, Turn};
use book::Sizes;

// How many reductions can be done without a shift.
pub const REDUCTIONS: usize = 4096;

// Reduces until the symbol is to be shifted or the run ends. A turn with none left ends it: after a `for` there would be a case that never comes.
pub fn reduce(
    cells: &[u16],
    d: Sizes,
    stack: &mut [u16],
    depth: usize,
    a: u16,
    taken: usize,
) -> Paused
    requires holds { Holds d cells.now }
    requires stack_in { StackIn d.s stack.old depth }
    requires a_lt_t { a < d.t }
    ensures { Held d.s stack.old stack.new (reducing (tables_of cells.now) a taken 4096 (stack_of stack.old depth)) result }
{
    let mut n = depth;
    let mut left = REDUCTIONS;
    loop {
        match turn(cells, d, stack, n, a, taken, left) {
            Turn::Ended(e) => return Paused::Ended(e, n),
            Turn::Shift(s) => return Paused::Shift(s, n),
            Turn::Reduce(m, g) => {
                stack[m] = g;
                n = m + 1;
                left -= 1;
            }
        }
    }
}
