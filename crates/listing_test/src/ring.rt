// A ring of 32 states over 8 terminals with n nonterminals: each terminal leads on to the next state, and the last state fails.
ghost use Rattle.std.specs.Prelude.{◌≡◌, ◌≤◌, length};

const STATES: usize = 32;

const TERMINALS: usize = 8;

// The numbers before the gotos, and those of the longest book here.
const BEFORE: usize = 261;

const MOST: usize = 549;

// The action of state s under the terminal z.
fn action(s: usize, z: usize) -> u8 {
    if s >= STATES - 1 {
        0
    } else if z == 0 {
        1
    } else {
        (2 * s + 4) as u8
    }
}

fn put_actions(bytes: &mut [u8; MOST])
    ensures { length bytes.new ≡ length bytes.old }
{
    for i in 0..STATES * TERMINALS {
        bytes[5 + i] = action(i / TERMINALS, i % TERMINALS);
    }
}

pub fn list(n: u8)
    requires { n ≤ 9 }
{
    let mut bytes = [0u8; MOST];
    bytes[0] = 1;
    bytes[1] = 8;
    bytes[2] = n;
    bytes[3] = 32;
    put_actions(&mut bytes);
    let end = BEFORE + STATES * (n as usize);
    printing::print_listing(&bytes[..end]);
}
