// Sets of terminals as 32-bit masks, bit z for terminal z.
#![tactic(auto)]

ghost use Rattle.std.specs.Prelude.{cond, ◌≡◌, ◌≤◌, ◌<◌, ◌^◌, length};
ghost use Rattle.std.specs.Int.Bits.{bit_or};
ghost use Rattle.std.specs.Int.Count.{ones};
ghost use Rattle.sets.specs.Set.{set_of};
ghost use Rattle.sets.specs.Bits.{member, below};

// The set with z in it.
pub fn insert(set: u32, z: usize) -> u32
    requires { z < 32 }
    ensures { result ≡ bit_or set (2 ^ z) }
{
    set | (1u32 << z)
}

fn insert_if(set: u32, z: usize, test: bool) -> u32
    requires { z < 32 }
    ensures { result ≡ cond test (bit_or set (2 ^ z)) set }
{
    if test { insert(set, z) } else { set }
}

// Whether z is in the set: whether putting it in changes nothing.
pub fn contains(set: u32, z: usize) -> bool
    requires { z < 32 }
    ensures { result ≡ member set z }
{
    insert(set, z) == set
}

// How many terminals are in the set.
pub fn size(set: u32) -> u32
    ensures { result ≡ ones set }
{
    u32::count_ones(set)
}

// The terminals whose cost is below a mark.
pub fn members(costs: &[u16], mark: u16) -> u32
    requires { length costs.now ≤ 32 }
    ensures { result ≡ set_of (below costs.now mark) (length costs.now) }
{
    let mut set: u32 = 0;
    for (z, cost) in costs.iter().enumerate() {
        set = insert_if(set, z, *cost < mark);
    }
    set
}
