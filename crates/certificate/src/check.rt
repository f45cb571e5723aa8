// The check: the refusals, then the conditions in turn.
ghost use Rattle.std.specs.Prelude.{Ok, ◌≡◌, ◌+◌, ◌≤◌, length};
ghost use Rattle.book.specs.TablesLaws.{Accepted};
ghost use Rattle.walk.specs.Scale.{plain};
ghost use Rattle.layers.specs.Crossing.{Usable};
ghost use Rattle.roads.specs.Lowest.{Lowest};
ghost use Rattle.certificate.specs.CheckingLaws.{RowsFit};
ghost use Rattle.certificate.specs.Faults.{InRows, Lent, HoldTo, JudgedIn};
ghost use Rattle.certificate.specs.Wrong.{Admitted};
ghost use Rattle.certificate.specs.Verdict.{checking};
ghost use Rattle.certificate.specs.declared.Condition.TheVariants.{Range};

use crate::admission::admit_rows;
use crate::claims::first_alone;
use crate::sentences::{check_sentences, lowest_sentence};
use crate::{Condition, Verdict};
use book::Sizes;
use forms::{PLAIN, plain_cells, plain_sizes};
use number::Refusal;
use roads::{live_rows, lowest_pair, lowest_road};

// The index of the first claim over 1,002, the pairs counted on after the crossings, or the number of claims.
fn first_over(crossings: &[u16], pairs: &[u16]) -> usize
    requires { (length crossings.now ≤ 4194304) × (length pairs.now ≤ 4096) }
    ensures { Lowest (InRows Range crossings.now pairs.now) (length crossings.now + length pairs.now) result }
{
    let i = first_alone(Condition::Range, crossings);
    if i < crossings.len() {
        return i;
    }
    crossings.len() + first_alone(Condition::Range, pairs)
}

// The conditions on pairs and sentences, where the claims are in range and no crossing exceeds a road.
fn check_pairs(
    cells: &[u16],
    d: Sizes,
    crossings: &[u16],
    rows: &[u8; 4096],
    pairs: &[u16],
    sentences: &[u8],
) -> Verdict
    requires lent { Lent d cells.now crossings.now pairs.now sentences.now }
    requires usable { Usable plain d cells.now crossings.now rows.now }
    requires hold_to { HoldTo d cells.now crossings.now pairs.now sentences.now 2 }
    ensures { JudgedIn d cells.now crossings.now pairs.now sentences.now result }
{
    let base = crossings.len();
    let i = first_alone(Condition::Start, pairs);
    if i < d.t {
        return Verdict::Fault(Condition::Start, base + i);
    }
    let j = lowest_pair(cells, d, crossings, rows, pairs);
    if j < pairs.len() {
        return Verdict::Fault(Condition::Transitions, base + j);
    }
    let k = first_alone(Condition::Short, pairs);
    if k < pairs.len() {
        return Verdict::Fault(Condition::Short, base + k);
    }
    let n = lowest_sentence(cells, d, sentences, pairs);
    if n < pairs.len() {
        return Verdict::Fault(Condition::Sentences, base + n);
    }
    Verdict::Accepted
}

// The conditions, on plain cells.
fn check_claims(
    cells: &[u16],
    d: Sizes,
    crossings: &[u16],
    pairs: &[u16],
    sentences: &[u8],
) -> Verdict
    requires { Lent d cells.now crossings.now pairs.now sentences.now }
    ensures { JudgedIn d cells.now crossings.now pairs.now sentences.now result }
{
    let i = first_over(crossings, pairs);
    let top = crossings.len() + pairs.len();
    if i < top {
        return Verdict::Fault(Condition::Range, i);
    }
    let mut rows = [0u8; 4096];
    live_rows(cells, d, crossings, &mut rows);
    let j = lowest_road(cells, d, crossings, &rows, top);
    if j < top {
        return Verdict::Fault(Condition::Roads, j);
    }
    check_pairs(cells, d, crossings, &rows, pairs, sentences)
}

// .. on the cells of a book of any form, with rows of the right sizes and sentences that were admitted.
fn check_book(
    cells: &[u16],
    d: Sizes,
    crossings: &[u16],
    pairs: &[u16],
    sentences: &[u8],
) -> Verdict
    requires accepted { Accepted d cells.now }
    requires rows_fit { RowsFit d (length crossings.now) (length pairs.now) }
    requires admitted { Admitted d.t sentences.now pairs.now }
    ensures { Ok result ≡ checking cells.now crossings.now pairs.now sentences.now }
{
    let mut plain = [0u16; PLAIN];
    let n = plain_cells(cells, d, &mut plain);
    check_claims(&plain[..n], plain_sizes(d), crossings, pairs, sentences)
}

// The sentences first, where the rows have their sizes.
fn check_rows(
    cells: &[u16],
    d: Sizes,
    crossings: &[u16],
    pairs: &[u16],
    sentences: &[u8],
) -> Result<Verdict, Refusal>
    requires accepted { Accepted d cells.now }
    requires rows_fit { RowsFit d (length crossings.now) (length pairs.now) }
    ensures { result ≡ checking cells.now crossings.now pairs.now sentences.now }
{
    check_sentences(sentences, pairs, d.t)?;
    Ok(check_book(cells, d, crossings, pairs, sentences))
}

// The rows first, for a book that was checked.
fn check_against(
    cells: &[u16],
    d: Sizes,
    crossings: &[u16],
    pairs: &[u16],
    sentences: &[u8],
) -> Result<Verdict, Refusal>
    requires { Accepted d cells.now }
    ensures { result ≡ checking cells.now crossings.now pairs.now sentences.now }
{
    admit_rows(d, crossings.len(), pairs.len())?;
    check_rows(cells, d, crossings, pairs, sentences)
}

// Whether the certificate shows the map of the book in the cells: accepted, or the first condition that fails, in the order of `Condition`,
// with the lowest index of a claim at which it does. Refused by the refusals of `check`; then by 1 or 6 for the crossings, and for the pairs; then by
// 1, 2, 8, 7 and 6 for the sentences.
pub fn check_certificate(
    cells: &[u16],
    crossings: &[u16],
    pairs: &[u16],
    sentences: &[u8],
) -> Result<Verdict, Refusal>
    ensures { result ≡ checking cells.now crossings.now pairs.now sentences.now }
{
    let d = book::check(cells)?;
    check_against(cells, d, crossings, pairs, sentences)
}
