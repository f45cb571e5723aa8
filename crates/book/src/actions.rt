// An action cell, decoded.
ghost use Rattle.std.specs.Prelude.{◌≡◌};
ghost use Rattle.book.specs.Action.{action_of};

use crate::Action;

pub fn decode(cell: u16) -> Action
    ensures { result ≡ action_of cell }
{
    if cell == 0 {
        return Action::Error;
    }
    if cell == 1 {
        return Action::Accept;
    }
    let k = cell - 2;
    if k % 2 == 0 {
        return Action::Shift(k / 2);
    }
    Action::Reduce(k / 2)
}
