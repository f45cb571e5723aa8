// Each answer as a kind and its values.
ghost use Rattle.std.specs.Prelude.{[], ◌∷◌, ◌≡◌};
ghost use Rattle.told.specs.Told.{eight, told_refusal, told_written, told_checked, kind_of, told_ended, told_ran, told_found, told_listed, told_entry, told_next, told_wrong, told_judgement, told_judged, told_sorted, list_of, of_list, told_joined, told_verdict};
ghost use Rattle.certificate.specs.Certificate.{order};

use book::Sizes;
use certificate::{Condition, Verdict};
use course::Judgement;
use finder::Found;
use joining::{Unjoined, Which};
use lists::{Entry, Rest};
use machine::{Ending, Stop, stop_of};
use number::Refusal;
use sorting::Unsorted;

// A kind with at most three values.
fn few(kind: u64, a: u64, b: u64, c: u64) -> [u64; 8]
    ensures { result ≡ eight (kind ∷ a ∷ b ∷ c ∷ []) }
{
    [kind, a, b, c, 0, 0, 0, 0]
}

fn tell_refusal(r: Refusal) -> [u64; 8]
    ensures { result ≡ told_refusal r }
{
    few(0, u64::from(r.cause.number()), r.place as u64, 0)
}

pub fn tell_written(w: Result<usize, Refusal>) -> [u64; 8]
    ensures { result ≡ told_written w }
{
    match w {
        Err(r) => tell_refusal(r),
        Ok(n) => few(1, n as u64, 0, 0),
    }
}

pub fn tell_checked(c: Result<Sizes, Refusal>) -> [u64; 8]
    ensures { result ≡ told_checked c }
{
    match c {
        Err(r) => tell_refusal(r),
        Ok(d) => [
            1,
            d.t as u64,
            d.n as u64,
            d.s as u64,
            d.p as u64,
            d.form as u64,
            0,
            0,
        ],
    }
}

fn kind_of(e: Ending) -> u64
    ensures { result ≡ kind_of e }
{
    match e {
        Ending::Accepted(_) => 1,
        Ending::Error(_) => 2,
        Ending::Broken(_) => 3,
        Ending::Passed(_) => 4,
        Ending::Deep(_) => 5,
        Ending::Spinning(_) => 6,
    }
}

fn tell_ended(kind: u64, stop: Stop) -> [u64; 8]
    ensures { result ≡ told_ended kind stop }
{
    few(
        kind,
        stop.state as u64,
        stop.symbol as u64,
        stop.taken as u64,
    )
}

pub fn tell_ran(r: Result<Ending, Refusal>) -> [u64; 8]
    ensures { result ≡ told_ran r }
{
    match r {
        Err(refusal) => tell_refusal(refusal),
        Ok(e) => tell_ended(kind_of(e), stop_of(e)),
    }
}

pub fn tell_found(f: Result<Found, Refusal>) -> [u64; 8]
    ensures { result ≡ told_found f }
{
    match f {
        Err(r) => tell_refusal(r),
        Ok(Found::Unreached) => few(1, 0, 0, 0),
        Ok(Found::Long) => few(2, 0, 0, 0),
        Ok(Found::Sentence(n)) => few(3, n as u64, 0, 0),
    }
}

pub fn tell_listed(l: Result<Rest, Refusal>) -> [u64; 8]
    ensures { result ≡ told_listed l }
{
    match l {
        Err(r) => tell_refusal(r),
        Ok(rest) => few(1, rest.at as u64, rest.left as u64, 0),
    }
}

// An entry, with where the rest begins and how many are left.
fn entry_then(e: Entry, at: u64, left: u64) -> [u64; 8]
    ensures { result ≡ eight (1 ∷ e.start ∷ e.len ∷ e.lookahead ∷ e.article ∷ at ∷ left ∷ []) }
{
    [
        1,
        e.start as u64,
        e.len as u64,
        e.lookahead as u64,
        e.article as u64,
        at,
        left,
        0,
    ]
}

pub fn tell_entry(e: Result<Option<Entry>, Refusal>) -> [u64; 8]
    ensures { result ≡ told_entry e }
{
    match e {
        Err(r) => tell_refusal(r),
        Ok(Some(e)) => entry_then(e, 0, 0),
        Ok(None) => few(2, 0, 0, 0),
    }
}

pub fn tell_next(n: Option<(Entry, Rest)>) -> [u64; 8]
    ensures { result ≡ told_next n }
{
    match n {
        Some((e, rest)) => entry_then(e, rest.at as u64, rest.left as u64),
        None => few(2, 0, 0, 0),
    }
}

fn tell_wrong(i: usize, kind: u64, stop: Stop) -> [u64; 8]
    ensures { result ≡ told_wrong i kind stop }
{
    [
        4,
        i as u64,
        kind,
        stop.state as u64,
        stop.symbol as u64,
        stop.taken as u64,
        0,
        0,
    ]
}

fn tell_judgement(j: Judgement) -> [u64; 8]
    ensures { result ≡ told_judgement j }
{
    match j {
        Judgement::Complete => few(1, 0, 0, 0),
        Judgement::Uncovered(s) => few(2, s as u64, 0, 0),
        Judgement::Repeat(i) => few(3, i as u64, 0, 0),
        Judgement::Wrong(i, e) => tell_wrong(i, kind_of(e), stop_of(e)),
        Judgement::OutOfOrder(i) => few(5, i as u64, 0, 0),
    }
}

pub fn tell_judged(j: Result<Judgement, Refusal>) -> [u64; 8]
    ensures { result ≡ told_judged j }
{
    match j {
        Err(r) => tell_refusal(r),
        Ok(j) => tell_judgement(j),
    }
}

pub fn tell_sorted(s: Result<usize, Unsorted>) -> [u64; 8]
    ensures { result ≡ told_sorted s }
{
    match s {
        Err(Unsorted::Refused(r)) => tell_refusal(r),
        Err(Unsorted::Fault(j)) => tell_judgement(j),
        Ok(n) => few(1, n as u64, 0, 0),
    }
}

fn list_of(which: Which) -> u64
    ensures { result ≡ list_of which }
{
    match which {
        Which::First => 1,
        Which::Second => 2,
    }
}

// An answer's numbers, the last of them for the list that it is about.
fn of_list(which: Which, numbers: [u64; 8]) -> [u64; 8]
    ensures { result ≡ of_list which numbers }
{
    let mut all = numbers;
    all[7] = list_of(which);
    all
}

pub fn tell_joined(j: Result<usize, Unjoined>) -> [u64; 8]
    ensures { result ≡ told_joined j }
{
    match j {
        Err(Unjoined::Refused(r)) => tell_refusal(r),
        Err(Unjoined::ListRefused(which, r)) => of_list(which, tell_refusal(r)),
        Err(Unjoined::Fault(which, fault)) => of_list(which, tell_judgement(fault)),
        Ok(n) => few(1, n as u64, 0, 0),
    }
}

// The condition's number in the order.
fn order_of(k: Condition) -> u64
    ensures { result ≡ order k }
{
    match k {
        Condition::Range => 0,
        Condition::Roads => 1,
        Condition::Start => 2,
        Condition::Transitions => 3,
        Condition::Short => 4,
        Condition::Sentences => 5,
    }
}

pub fn tell_verdict(v: Result<Verdict, Refusal>) -> [u64; 8]
    ensures { result ≡ told_verdict v }
{
    match v {
        Err(r) => tell_refusal(r),
        Ok(Verdict::Accepted) => few(1, 0, 0, 0),
        Ok(Verdict::Fault(k, i)) => few(2, order_of(k), i as u64, 0),
    }
}
