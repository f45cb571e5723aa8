// Which numbers are in range where.
ghost use Rattle.std.specs.Prelude.{◌≡◌, ◌+◌, ◌*◌, ◌≤◌, ◌<◌, length};
ghost use Rattle.book.specs.Action.{action_of};
ghost use Rattle.book.specs.Book.{admitted};
ghost use Rattle.book.specs.BookLaws.{closing};
ghost use Rattle.book.specs.Tables.{sizes_of};
ghost use Rattle.book.specs.declared.Part.TheVariants.{Ranks};
ghost use Rattle.book.specs.Range.{part_length, allowed, fits, fault_cause};
ghost use Rattle.book.specs.RangeLaws.{Few, body_length, fault_among};
ghost use Rattle.sets.specs.Bits.{member};

use crate::actions::decode;
use crate::call::refuse_if;
use crate::{Action, Part, Sizes};
use number::{Cause, Cursor, Refusal};
use sets::contains;

const LOWEST: [u32; 5] = [1, 1, 0, 1, 0];

const HIGHEST: [u32; 5] = [2, 32, 32, 128, 128];

// How many ranks a book has: in form 1 none.
pub fn rank_count(d: Sizes) -> usize
    ensures { result ≡ part_length d Ranks }
{
    if d.form == 2 { d.t } else { 0 }
}

// How many numbers a part has.
pub fn part_length(d: Sizes, part: Part) -> usize
    requires { Few d }
    ensures { result ≡ part_length d part }
{
    match part {
        Part::Head => 5,
        Part::Productions => 2 * d.p,
        Part::Ranks => rank_count(d),
        Part::Actions => d.s * d.t,
        Part::Gotos => d.s * d.n,
    }
}

// How many numbers follow the head.
pub fn body_length(d: Sizes) -> usize
    requires { Few d }
    ensures { result ≡ body_length d }
{
    2 * d.p + rank_count(d) + d.s * d.t + d.s * d.n
}

// Whether the action that v says may stand under the terminal t. Over 65,535 it would name a state or production that no book has.
fn action_allowed(d: Sizes, t: usize, v: u32) -> bool
    requires { Few d }
    ensures { result ≡ allowed d t (action_of v) }
{
    if v > 65535 {
        return false;
    }
    match decode(v as u16) {
        Action::Error => true,
        Action::Accept => t == 0,
        Action::Shift(s) => {
            if t == 0 {
                return false;
            }
            (s as usize) < d.s
        }
        Action::Reduce(p) => (p as usize) < d.p,
    }
}

// Whether v may stand as number i of a part, of which the ranks before it are a set.
fn in_range(d: Sizes, part: Part, i: usize, v: u32, ranks: u32) -> bool
    requires { (i < part_length d part) × Few d }
    ensures { result ≡ fits d part i (member ranks v) v }
{
    match part {
        Part::Head => LOWEST[i] <= v && v <= HIGHEST[i],
        Part::Productions => {
            if i % 2 == 0 {
                return (v as usize) < d.n;
            }
            v <= 32
        }
        Part::Ranks => {
            if v as usize >= d.t {
                return false;
            }
            !contains(ranks, v as usize)
        }
        Part::Actions => action_allowed(d, i % d.t, v),
        Part::Gotos => (v as usize) <= d.s,
    }
}

// Why number i of a part is refused.
fn fault_cause(part: Part, i: usize) -> Cause
    ensures { result ≡ fault_cause part i }
{
    match part {
        Part::Head => {
            if i == 0 {
                return Cause::Form;
            }
            Cause::Count
        }
        Part::Productions => Cause::Production,
        Part::Ranks => Cause::Rank,
        Part::Actions => Cause::Action,
        Part::Gotos => Cause::Goto,
    }
}

// Number i of a part, as it was found at a place, or its refusal.
pub fn admit(
    found: Result<(u32, Cursor), Refusal>,
    d: Sizes,
    part: Part,
    i: usize,
    at: usize,
    ranks: u32,
) -> Result<(u32, Cursor), Refusal>
    requires { (i < part_length d part) × Few d }
    ensures { result ≡ admitted (fault_among d part i (member ranks)) at found }
{
    let (v, next) = found?;
    if in_range(d, part, i, v, ranks) {
        return Ok((v, next));
    }
    Err(Refusal::at(fault_cause(part, i), at))
}

// The sizes that the head says.
pub fn sizes(head: &[u16]) -> Sizes
    requires { 5 ≤ length head.now }
    ensures { result ≡ sizes_of head.now }
{
    Sizes {
        form: head[0] as usize,
        t: head[1] as usize,
        n: head[2] as usize,
        s: head[3] as usize,
        p: head[4] as usize,
    }
}

// The verdict on a book whose last row ended at a place: nothing may follow.
pub fn close(at: usize, d: Sizes, end: usize) -> Result<Sizes, Refusal>
    ensures { result ≡ closing d end at }
{
    refuse_if(at < end, Cause::Surplus, at)?;
    Ok(d)
}
