// One look at the top state and a symbol.
ghost use Rattle.std.specs.Prelude.{◌≡◌, ◌≤◌, ◌<◌, length, drop};
ghost use Rattle.book.specs.Tables.{tables_of};
ghost use Rattle.book.specs.TablesLaws.{Holds};
ghost use Rattle.machine.specs.Machine.{lands, next};
ghost use Rattle.machine.specs.Run.{stopped};
ghost use Rattle.machine.specs.Stack.{stack_of, StackIn, Looked, Turned};

use crate::{DEPTH, Ending, Seen, Stop, Turn};
use book::{Action, Sizes};

// Production p, on a stack of as many states as depth says.
fn reduction(cells: &[u16], d: Sizes, stack: &[u16], depth: usize, p: usize) -> Seen
    requires holds { Holds d cells.now }
    requires stack_in { StackIn d.s stack.now depth }
    requires p_lt_p { p < d.p }
    ensures { Looked d.s stack.now depth (lands (tables_of cells.now) ((tables_of cells.now).lhs p) (drop ((tables_of cells.now).len p) (stack_of stack.now depth))) result }
{
    let n = book::production_length(cells, d, p) as usize;
    if depth <= n {
        return Seen::Broken;
    }
    let m = depth - n;
    let x = book::left_side(cells, d, p) as usize;
    let g = book::goto_at(cells, d, stack[m - 1] as usize, x);
    if g == 0 {
        return Seen::Broken;
    }
    Seen::Reduce(m, g - 1)
}

pub fn look(cells: &[u16], d: Sizes, stack: &[u16], depth: usize, a: u16) -> Seen
    requires holds { Holds d cells.now }
    requires stack_in { StackIn d.s stack.now depth }
    requires a_lt_t { a < d.t }
    ensures { Looked d.s stack.now depth (next (tables_of cells.now) (stack_of stack.now depth) a) result }
{
    let top = stack[depth - 1] as usize;
    match book::action_at(cells, d, top, a as usize) {
        Action::Error => Seen::Error,
        Action::Accept => Seen::Accept,
        Action::Shift(s) => Seen::Shift(s),
        Action::Reduce(p) => reduction(cells, d, stack, depth, p as usize),
    }
}

// Where a run stands whose stack has as many states as depth says.
pub fn stop_at(stack: &[u16], depth: usize, a: u16, taken: usize) -> Stop
    requires { (1 ≤ depth) × (depth ≤ length stack.now) }
    ensures { result ≡ stopped (stack_of stack.now depth) a taken }
{
    Stop {
        state: stack[depth - 1],
        symbol: a,
        taken,
    }
}

// One turn of the reductions before a symbol, where as many more may be done as left says.
pub fn turn(
    cells: &[u16],
    d: Sizes,
    stack: &[u16],
    depth: usize,
    a: u16,
    taken: usize,
    left: usize,
) -> Turn
    requires holds { Holds d cells.now }
    requires stack_in { StackIn d.s stack.now depth }
    requires a_lt_t { a < d.t }
    ensures { Turned (tables_of cells.now) d.s stack.now depth a taken left result }
{
    let stop = stop_at(stack, depth, a, taken);
    match look(cells, d, stack, depth, a) {
        Seen::Accept => Turn::Ended(Ending::Accepted(stop)),
        Seen::Error => Turn::Ended(Ending::Error(stop)),
        Seen::Broken => Turn::Ended(Ending::Broken(stop)),
        Seen::Shift(s) => Turn::Shift(s),
        Seen::Reduce(m, g) => {
            if left == 0 {
                return Turn::Ended(Ending::Spinning(stop));
            }
            if m >= DEPTH {
                return Turn::Ended(Ending::Deep(stop));
            }
            Turn::Reduce(m, g)
        }
    }
}
