// The comparison can fail: one answer of the library is changed before it is compared. The pair is (1, 1), which Bracket reaches by
// the sentence `1`; or (1, 3), which `1` reaches too, while its reduction breaks with `2 1` where state 2 has no goto.
use crate::agree;
use crate::judged::Fault;

// The numbers of the pairs.
const PAIR: usize = 9;

const BREAK: usize = 11;

// Which answer is changed: none, a cell of the map, the length that `find` answers, its sentence, the set, the set's size, the length that
// `find_break` answers, that length and its sentence, which become as `find` answers, or the judgement of a list.
#[derive(Clone, Copy)]
pub enum Wrong {
    Nothing,
    Map,
    Length,
    Sentence,
    Set,
    Size,
    BreakLength,
    BreakSentence,
    Judgement,
}

pub fn change(
    what: Wrong,
    map: &mut [u16; 256],
    lengths: &mut [u16; 256],
    theirs: &mut [u8; 262144],
    masks: &mut [u32; 128],
    sizes: &mut [u32; 128],
) {
    match what {
        Wrong::Map => map[PAIR] = 2,
        Wrong::Length => lengths[PAIR] = 1002,
        Wrong::Sentence => theirs[PAIR * 1024] = 2,
        Wrong::Set => masks[1] = 13,
        Wrong::Size => sizes[1] = 3,
        _ => {}
    }
}

pub fn change_break(what: Wrong, lengths: &mut [u16; 256], theirs: &mut [u8; 262144]) {
    match what {
        Wrong::BreakLength => lengths[BREAK] = 1002,
        Wrong::BreakSentence => {
            lengths[BREAK] = 1;
            theirs[BREAK * 1024] = 1;
        }
        _ => {}
    }
}

pub fn judged(what: Wrong, state: Result<Option<usize>, Fault>) -> Result<Option<usize>, Fault> {
    match what {
        Wrong::Judgement => Err(Fault),
        _ => state,
    }
}

fn changed(name: &[u8], cells: &[u16], what: Wrong) {
    trial::text(name);
    agree::book(cells, what);
}

pub fn bracket(cells: &[u16]) {
    changed(b"nothing is wrong:", cells, Wrong::Nothing);
    changed(b"a cell of the map is wrong:", cells, Wrong::Map);
    changed(b"a pair is called unreached:", cells, Wrong::Length);
    changed(b"a sentence is wrong:", cells, Wrong::Sentence);
    changed(b"a set is wrong:", cells, Wrong::Set);
    changed(b"a size is wrong:", cells, Wrong::Size);
}

// Bracket without the goto of state 2.
pub fn breaks(cells: &[u16]) {
    changed(b"nothing is wrong:", cells, Wrong::Nothing);
    changed(
        b"a reduction is said never to break:",
        cells,
        Wrong::BreakLength,
    );
    changed(b"a sentence does not break:", cells, Wrong::BreakSentence);
    changed(b"a judgement is wrong:", cells, Wrong::Judgement);
}
