// The entries of a list copied to lent bytes.
ghost use Rattle.std.specs.Prelude.{◌≡◌, ◌+◌, ◌≤◌, length};
ghost use Rattle.std.proofs.lemmas.List.Edits.{sets};
ghost use Rattle.lists.specs.Entry.{part};
ghost use Rattle.items.specs.SpanLaws.{span_at};
ghost use Rattle.sorting.specs.UpTo.{spans_to};

use lists::entry_at;

// n bytes, from a place of the one to a place of the other.
pub fn copy_bytes(from: &[u8], start: usize, n: usize, to: &mut [u8], at: usize)
    requires { (start + n ≤ length from.now) × (at + n ≤ length to.old) }
    ensures { to.new ≡ sets to.old at (part from.now start n) }
{
    for i in 0..n {
        to[at + i] = from[start + i];
    }
}

// The entry at a place of a list, where 0 is none, to an offset; answers the offset after it.
pub fn put_entry(list: &[u8], place: usize, out: &mut [u8], at: usize) -> usize
    requires { at + length (span_at list.now place) ≤ length out.old }
    ensures value { result ≡ at + length (span_at list.now place) }
    ensures out_after { out.new ≡ sets out.old at (span_at list.now place) }
{
    if place == 0 {
        return at;
    }
    match entry_at(list, place, 32) {
        Err(_) => at,
        Ok((_, next)) => {
            let n = next.at - place;
            copy_bytes(list, place, n, out, at);
            at + n
        }
    }
}

// The entries at the places of the first states, one after another from an offset on.
pub fn put_entries(list: &[u8], places: &[usize; 128], states: usize, out: &mut [u8], start: usize)
    requires states_bound { states ≤ 128 }
    requires states_in_bounds { start + length (spans_to list.now places.now states) ≤ length out.old }
    ensures { out.new ≡ sets out.old start (spans_to list.now places.now states) }
{
    let mut at = start;
    for s in 0..states {
        at = put_entry(list, places[s], out, at);
    }
}
