// The table of waiting gotos: rows by depth and nonterminal, then a flag for each row and a flag for each depth.
ghost use Rattle.std.specs.Prelude.{◌≡◌, ◌+◌, ◌*◌, ◌/◌, ◌<◌, length};
ghost use Rattle.walk.specs.Scale.{plain};
ghost use Rattle.layers.specs.Step.{TableStep};
ghost use Rattle.waiting.specs.Waiting.{depth_in, event_in, cell_in, DepthOn, RowOn, Lowered};

use walk::{UNREACHED, fill, least};

// Depth k is on from now, if it was not, with its rows off.
fn open_depth(events: &mut [u16; 33824], k: usize)
    requires k_bound { k < 32 }
    requires events_len { length events.old ≡ 33824 }
    ensures events_len_2 { length events.new ≡ 33824 }
    ensures depth_on { DepthOn plain k events.old events.new }
{
    if events[33792 + k] != 0 {
        return;
    }
    fill(events, 32768 + k * 32, 32, 0);
    events[33792 + k] = 1;
}

// A row of such a depth is on from now, if it was not.
fn turn_on(events: &mut [u16; 33824], row: usize)
    requires row_bound { (row < 1024) × ¬ (depth_in events.old (row / 32) ≡ 0) }
    requires events_len { length events.old ≡ 33824 }
    ensures events_len_2 { length events.new ≡ 33824 }
    ensures row_on { RowOn plain row events.old events.new }
{
    if events[32768 + row] != 0 {
        return;
    }
    fill(events, row * 32, 32, UNREACHED);
    events[32768 + row] = 1;
}

// Lowers the entry of the nonterminal x and the terminal c in the rows of depth k to w.
pub fn lower(events: &mut [u16; 33824], k: usize, x: usize, c: usize, w: u16)
    requires k_bound { (k < 32) × (x < 32) × (c < 32) }
    requires events_len { length events.old ≡ 33824 }
    ensures events_len_2 { length events.new ≡ 33824 }
    ensures table_step { TableStep plain (Lowered (k * 32 + x) c w) (event_in plain events.old) (event_in plain events.new) }
{
    let row = k * 32 + x;
    open_depth(events, k);
    turn_on(events, row);
    events[row * 32 + c] = least(events[row * 32 + c], w);
}

// The cost at which the goto of cell i waits.
pub fn waiting_at(events: &[u16; 33824], at: usize, i: usize) -> u16
    requires { (at < 32) × (i < 1024) }
    ensures { result ≡ cell_in (event_in plain events.now) at i }
{
    if events[33792 + at] == 0 {
        return UNREACHED;
    }
    if events[32768 + (at * 32 + i / 32)] == 0 {
        return UNREACHED;
    }
    events[at * 1024 + i]
}
