// Claims that fail a condition by themselves, and the first of them in a row.
ghost use Rattle.std.specs.Prelude.{◌≡◌, length};
ghost use Rattle.certificate.specs.Faults.{fails_alone, InRow};
ghost use Rattle.roads.specs.Lowest.{Lowest};

use crate::Condition;
use walk::{LONG, UNREACHED};

fn fails_alone(condition: Condition, claim: u16) -> bool
    ensures { result ≡ fails_alone condition claim }
{
    match condition {
        Condition::Range => claim > UNREACHED,
        Condition::Start => claim != 0,
        Condition::Short => claim == LONG,
        Condition::Roads | Condition::Transitions | Condition::Sentences => false,
    }
}

// The place of the first claim of a row that fails the condition, or the row's length.
pub fn first_alone(condition: Condition, row: &[u16]) -> usize
    ensures { Lowest (InRow condition row.now) (length row.now) result }
{
    for (k, claim) in row.iter().enumerate() {
        if fails_alone(condition, *claim) {
            return k;
        }
    }
    row.len()
}
