// Rows of a fixed array, which stand 32 cells apart, copied one after the other.
ghost use Rattle.std.specs.Prelude.{◌≡◌, ◌+◌, ◌*◌, ◌≤◌, length, drop};
ghost use Rattle.std.proofs.Math.Seq.{paste};
ghost use Rattle.number.specs.Lent.{over};
ghost use Rattle.maps.specs.Rows.{rows};

// Copies n entries from a place of the array to a place of the lent cells.
fn copy_row(from: &[u16; 4096], start: usize, n: usize, to: &mut [u16], at: usize)
    requires { (length from.now ≡ 4096) × (start + n ≤ 4096) × (at + n ≤ length to.old) }
    ensures { to.new ≡ paste to.old at (drop start from.now) n }
{
    to[at..at + n].copy_from_slice(&from[start..start + n]);
}

// Copies the first t entries of each of the first s rows.
pub fn copy_rows(from: &[u16; 4096], s: usize, t: usize, to: &mut [u16])
    requires { (length from.now ≡ 4096) × (s ≤ 128) × (t ≤ 32) × (s * t ≤ length to.old) }
    ensures { to.new ≡ over (rows from.now t s) to.old }
{
    let mut at: usize = 0;
    for q in 0..s {
        copy_row(from, q * 32, t, to, at);
        at += t;
    }
}
