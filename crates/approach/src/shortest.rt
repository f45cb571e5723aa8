// The least cost to go from the start, over a stack with nothing below state 0.
ghost use Rattle.std.specs.Prelude.{◌+◌, ◌*◌, ◌≤◌, ◌<◌, ◌≡◌, length};
ghost use Rattle.approach.specs.Shortest.{least_over, Lowest};

use walk::least;

// The least of the costs to go and of what the len layers have for state 0 under a.
fn over_start(togo: &[u16; 4096], due: &[u16], len: usize, a: usize) -> u16
    requires { (a < 32) × (len * 4096 ≤ length due.now) }
    ensures { result ≡ least_over togo.now due.now len a }
{
    let mut r = togo[a];
    for m in 0..len {
        r = least(due[m * 4096 + a], r);
    }
    r
}

// .. under any terminal.
pub fn start_cost(togo: &[u16; 4096], due: &[u16], len: usize, t: usize) -> u16
    requires { (0 < t) × (t ≤ 32) × (len * 4096 ≤ length due.now) }
    ensures { Lowest (least_over togo.now due.now len) t result }
{
    let mut r = over_start(togo, due, len, 0);
    for a in 1..t {
        r = least(r, over_start(togo, due, len, a));
    }
    r
}
