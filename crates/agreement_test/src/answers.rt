// The library's answers for all pairs of a book, pair (q, z) at q * 8 + z.
ghost use Rattle.std.specs.Prelude.{◌<◌};

use crate::sentences::store;
use crate::tables;
use finder::Found;
use number::Refusal;

// What stands for a refusal.
const REFUSED: u16 = 65535;

fn short(n: usize) -> u16 {
    if n > 1000 { REFUSED } else { n as u16 }
}

fn find(
    cells: &[u16],
    breaks: bool,
    s: u16,
    z: u16,
    work: &mut [u16],
    buffer: &mut [u8],
) -> Result<Found, Refusal> {
    if breaks {
        finder::find_break(cells, s, z, work, buffer)
    } else {
        finder::find(cells, s, z, work, buffer)
    }
}

// What `find` or `find_break` says of pair k, as a cell of the map would, and its sentence.
fn ask(cells: &[u16], breaks: bool, k: usize, theirs: &mut [u8; 262144]) -> u16
    requires { k < 256 }
{
    let mut work = [0u16; 32768];
    let mut buffer = [0u8; 1000];
    match find(
        cells,
        breaks,
        (k / 8) as u16,
        (k % 8) as u16,
        &mut work,
        &mut buffer,
    ) {
        Err(_) => REFUSED,
        Ok(Found::Unreached) => 1002,
        Ok(Found::Long) => 1001,
        Ok(Found::Sentence(n)) => {
            store(theirs, k * 1024, &buffer);
            short(n)
        }
    }
}

fn is_pair(s: usize, t: usize, k: usize) -> bool {
    k / 8 < s && k % 8 < t
}

// The answers of `find`, and the map, whose cells stand in flat one after another.
fn each_pair(
    cells: &[u16],
    s: usize,
    t: usize,
    flat: &[u16],
    map: &mut [u16; 256],
    lengths: &mut [u16; 256],
    theirs: &mut [u8; 262144],
) {
    let mut next: usize = 0;
    for k in 0..256 {
        if is_pair(s, t, k) {
            map[k] = tables::number_at(flat, next);
            lengths[k] = ask(cells, false, k, theirs);
            next += 1;
        }
    }
}

pub fn pairs(
    cells: &[u16],
    s: usize,
    t: usize,
    map: &mut [u16; 256],
    lengths: &mut [u16; 256],
    theirs: &mut [u8; 262144],
) {
    let mut work = [0u16; 32768];
    let mut flat = [REFUSED; 256];
    let _ = maps::map(cells, &mut work, &mut flat);
    each_pair(cells, s, t, &flat, map, lengths, theirs);
}

// The answers of `find_break`.
pub fn breaks(
    cells: &[u16],
    s: usize,
    t: usize,
    lengths: &mut [u16; 256],
    theirs: &mut [u8; 262144],
) {
    for (k, v) in lengths.iter_mut().enumerate() {
        if is_pair(s, t, k) {
            *v = ask(cells, true, k, theirs);
        }
    }
}

pub fn sets(cells: &[u16], masks: &mut [u32; 128], sizes: &mut [u32; 128]) {
    let mut work = [0u16; 32768];
    let _ = maps::sets(cells, &mut work, masks, sizes);
}
