// A reader that is kept over a list: one turn of it, and five.
ghost use Rattle.std.specs.Prelude.{◌≡◌};
ghost use Rattle.lists.specs.Reading.{moved};

use crate::show;
use lists::Reader;

// One turn: the reader is lent for it, asked how many remain, and kept.
fn turn<'a>(mut r: Reader<'a>) -> Reader<'a>
    ensures { result ≡ moved r.entry }
{
    let g = lists::next_entry(&mut r);
    let left = lists::remaining(r);
    show::given(r.list, g, left);
    r
}

// Five turns of the reader over a list.
pub fn five(name: &[u8], cells: &[u16], list: &[u8]) {
    let r = lists::start(cells, list);
    show::begun(name, r);
    turn(turn(turn(turn(turn(r)))));
}
