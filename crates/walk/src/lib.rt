// Arithmetic of capped costs, and cells that hold them.
#![tactic(auto)]

ghost use Rattle.std.specs.Prelude.{◌≡◌, ◌+◌, ◌≤◌, min, max, length};
ghost use Rattle.walk.specs.Scale.{plain};
ghost use Rattle.walk.specs.Sum.{plus};
ghost use Rattle.walk.specs.Fill.{filled};

// The most symbols that a sentence can have.
pub const LIMIT: u16 = 1000;

// The cost of every longer sequence.
pub const LONG: u16 = 1001;

// The cost where there is none.
pub const UNREACHED: u16 = 1002;

// The smaller of two costs.
pub fn least(x: u16, y: u16) -> u16
    ensures { result ≡ min x y }
{
    x.min(y)
}

// The larger of two counts.
pub fn most(x: usize, y: usize) -> usize
    ensures { result ≡ max x y }
{
    x.max(y)
}

// The capped sum of two costs.
pub fn add(x: u16, y: u16) -> u16
    ensures { result ≡ plus plain x y }
{
    if x >= UNREACHED {
        return UNREACHED;
    }
    if y >= UNREACHED {
        return UNREACHED;
    }
    least(x + y, LONG)
}

// Stores v in n cells from start on.
pub fn fill(cells: &mut [u16], start: usize, n: usize, v: u16)
    requires { start + n ≤ length cells.old }
    ensures { cells.new ≡ filled cells.old start n v }
{
    cells[start..start + n].fill(v);
}
