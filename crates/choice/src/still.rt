// The costs to go to a shift of the terminal a at no cost: one column of a fixed array.
ghost use Rattle.std.specs.Prelude.{◌≡◌, ◌≤◌, ◌<◌, length};
ghost use Rattle.choice.specs.Still.{cost_of, Column};

use walk::UNREACHED;

// Nothing where there is a distance to a shift.
fn cost(distance: u8) -> u16
    ensures { result ≡ cost_of distance }
{
    if distance < 255 { 0 } else { UNREACHED }
}

// Writes column a for the first s states.
pub fn still(distances: &[u8; 128], s: usize, a: usize, to: &mut [u16; 4096])
    requires { (s ≤ 128) × (a < 32) × (length distances.now ≡ 128) × (length to.old ≡ 4096) }
    ensures { Column distances.now a to.new s }
{
    for q in 0..s {
        to[q * 32 + a] = cost(distances[q]);
    }
}
