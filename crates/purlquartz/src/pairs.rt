// What sequences reach: one pair, the whole map, the sets, all sentences; and with which the reduction of a pair breaks.
ghost use Rattle.finder.specs.Finder.{Finds, FindsBreak};
ghost use Rattle.maps.specs.Maps.{Maps, Gathers};
ghost use Rattle.sentences.specs.Sentences.{Sentences, BreakSentences};
ghost use Rattle.told.specs.Told.{told_written, told_found, Told};

use told::{tell_found, tell_written};

pub fn purlquartz_find(
    cells: &[u16],
    state: u16,
    lookahead: u16,
    work: &mut [u16],
    buffer: &mut [u8],
    answer: &mut [u64; 8],
)
    ensures { Told (Finds cells.now state lookahead work.old buffer.old) told_found answer.new (work.new, buffer.new) }
{
    *answer = tell_found(finder::find(cells, state, lookahead, work, buffer));
}

pub fn purlquartz_find_break(
    cells: &[u16],
    state: u16,
    lookahead: u16,
    work: &mut [u16],
    buffer: &mut [u8],
    answer: &mut [u64; 8],
)
    ensures { Told (FindsBreak cells.now state lookahead work.old buffer.old) told_found answer.new (work.new, buffer.new) }
{
    *answer = tell_found(finder::find_break(cells, state, lookahead, work, buffer));
}

pub fn purlquartz_map(cells: &[u16], work: &mut [u16], map: &mut [u16], answer: &mut [u64; 8])
    ensures { Told (Maps cells.now work.old map.old) told_written answer.new (work.new, map.new) }
{
    *answer = tell_written(maps::map(cells, work, map));
}

pub fn purlquartz_sets(
    cells: &[u16],
    work: &mut [u16],
    masks: &mut [u32],
    sizes: &mut [u32],
    answer: &mut [u64; 8],
)
    ensures { Told (Gathers cells.now work.old masks.old sizes.old) told_written answer.new (work.new, (masks.new, sizes.new)) }
{
    *answer = tell_written(maps::sets(cells, work, masks, sizes));
}

pub fn purlquartz_sentences(
    cells: &[u16],
    work: &mut [u16],
    map: &mut [u16],
    bytes: &mut [u8],
    answer: &mut [u64; 8],
)
    ensures { Told (Sentences cells.now work.old map.old bytes.old) told_written answer.new (work.new, (map.new, bytes.new)) }
{
    *answer = tell_written(sentences::sentences(cells, work, map, bytes));
}

pub fn purlquartz_break_sentences(
    cells: &[u16],
    work: &mut [u16],
    map: &mut [u16],
    bytes: &mut [u8],
    answer: &mut [u64; 8],
)
    ensures { Told (BreakSentences cells.now work.old map.old bytes.old) told_written answer.new (work.new, (map.new, bytes.new)) }
{
    *answer = tell_written(sentences::break_sentences(cells, work, map, bytes));
}
