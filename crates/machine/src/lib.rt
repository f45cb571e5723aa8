// A run of the machine.
#![tactic(auto)]

mod admission;
mod driver;
mod looks;
mod reductions;

ghost use Rattle.std.specs.Prelude.{◌≡◌};
ghost use Rattle.machine.specs.Run.{stop_of, running};

pub use driver::{drive, take_in};
pub use looks::look;
use number::Refusal;
pub use reductions::REDUCTIONS;

// How many states a run can stack.
pub const DEPTH: usize = 1024;

// Where a run ended: the top state, the symbol looked at and how many were taken in.
#[derive(Clone, Copy, Debug, PartialEq, Eq)]
pub struct Stop {
    pub state: u16,
    pub symbol: u16,
    pub taken: usize,
}

#[derive(Clone, Copy, Debug, PartialEq, Eq)]
pub enum Ending {
    Accepted(Stop),
    Error(Stop),
    Broken(Stop),
    Passed(Stop),
    Deep(Stop),
    Spinning(Stop),
}

// What the machine does next; a reduction keeps the lowest states, as many as its first number says, and pushes the second.
#[derive(Clone, Copy, Debug, PartialEq, Eq)]
pub enum Seen {
    Accept,
    Error,
    Broken,
    Shift(u16),
    Reduce(usize, u16),
}

// What comes of it under the limits.
#[derive(Clone, Copy, Debug, PartialEq, Eq)]
enum Turn {
    Ended(Ending),
    Shift(u16),
    Reduce(usize, u16),
}

// What comes of the reductions before a symbol, with the depth of the stack. An ending is an answer like the other, and no error: so no Result.
#[derive(Clone, Copy, Debug, PartialEq, Eq)]
enum Paused {
    Ended(Ending, usize),
    Shift(u16, usize),
}

// What comes of a symbol of the sentence: the run ends at a depth, or goes on at one. An ending is no error: so no Result.
#[derive(Clone, Copy, Debug, PartialEq, Eq)]
pub enum Entered {
    Ended(Ending, usize),
    Depth(usize),
}

// Where the run ended.
pub fn stop_of(e: Ending) -> Stop
    ensures { result ≡ stop_of e }
{
    match e {
        Ending::Accepted(stop)
        | Ending::Error(stop)
        | Ending::Broken(stop)
        | Ending::Passed(stop)
        | Ending::Deep(stop)
        | Ending::Spinning(stop) => stop,
    }
}

// Runs a sentence, then its lookahead, on the book in the cells. Leaves in the first 1,024 stack cells the stack before the step that was
// not taken, bottom first, then zeros; or refuses by the refusals of `check`, then 8, 7, 11, 13, and changes no cell.
pub fn run(
    cells: &[u16],
    sentence: &[u8],
    lookahead: u16,
    stack: &mut [u16],
) -> Result<Ending, Refusal>
    ensures { (result, stack.new) ≡ running cells.now sentence.now lookahead stack.old }
{
    let d = admission::admit(cells, sentence, lookahead, stack.len())?;
    Ok(driver::drive_book(cells, d, sentence, lookahead, stack))
}
