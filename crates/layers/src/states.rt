// The states of a layer that are on: how many, then these states, and from cell 129 on a flag for each state.
ghost use Rattle.std.specs.Prelude.{◌≡◌, ◌≤◌, ◌<◌, get_or};
ghost use Rattle.layers.specs.States.{flag_in, listed_in, Listed, AllOn};
ghost use Rattle.layers.specs.StatesLaws.{added};

fn wide(x: u8) -> usize
    ensures { (result ≡ x) × (result < 256) }
{
    x as usize
}

// How many states are on.
pub fn count_on(flags: &[u8; 257]) -> usize
    ensures { (result ≡ get_or flags.now 0 0) × (result < 256) }
{
    wide(flags[0])
}

// The i-th of them.
pub fn state_on(flags: &[u8; 257], i: usize) -> usize
    requires { i < 256 }
    ensures { result ≡ listed_in flags.now i }
{
    wide(flags[1 + i])
}

// State g, which is off, is on from now.
pub fn add_state(flags: &mut [u8; 257], g: usize)
    requires listed { Listed 128 flags.old }
    requires g_bound { (g < 128) × (flag_in flags.old g ≡ 0) }
    ensures { flags.new ≡ added flags.old g }
{
    let n = flags[0] as usize;
    flags[1 + n] = g as u8;
    flags[0] = (n + 1) as u8;
    flags[129 + g] = 1;
}

// Every state below s is on.
pub fn all_on(flags: &mut [u8; 257], s: usize)
    requires { s ≤ 128 }
    ensures { AllOn s flags.new }
{
    *flags = [0; 257];
    for q in 0..s {
        add_state(flags, q);
    }
}
