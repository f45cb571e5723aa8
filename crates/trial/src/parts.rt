// Parts that stand one after the other, each after two bytes that say how long it is.
ghost use Rattle.std.specs.Prelude.{◌≤◌, ◌<◌, length};

use crate::Part;

// The next part, empty and at the end where it is cut off.
pub fn part_at(bytes: &[u8], at: usize) -> Part
    requires { at < length bytes.now }
    ensures { (at < result.end) × (result.start ≤ result.end) × (result.end ≤ length bytes.now) }
{
    let most = bytes.len();
    if most - at < 2 {
        return Part {
            start: most,
            end: most,
        };
    }
    let start = at + 2;
    let len = bytes[at] as usize + 256 * (bytes[at + 1] as usize);
    if most - start < len {
        return Part {
            start: most,
            end: most,
        };
    }
    Part {
        start,
        end: start + len,
    }
}
