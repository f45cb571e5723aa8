// Cells copied from one slice to another.
ghost use Rattle.std.specs.Prelude.{◌≡◌, ◌+◌, ◌≤◌, length, drop};
ghost use Rattle.std.proofs.Math.Seq.{paste};

// n cells, from a place of the one to a place of the other.
pub fn copy(from: &[u16], start: usize, n: usize, to: &mut [u16], at: usize)
    requires { (start + n ≤ length from.now) × (at + n ≤ length to.old) }
    ensures { to.new ≡ paste to.old at (drop start from.now) n }
{
    for i in 0..n {
        to[at + i] = from[start + i];
    }
}
