// The sentences of a certificate, in the map's order: one for each pair claimed at 1,000 or less.
ghost use Rattle.std.specs.Prelude.{◌≡◌, ◌*◌, ◌/◌, ◌%◌, ◌≤◌, ◌<◌, length};
ghost use Rattle.book.specs.RowLaws.{ends};
ghost use Rattle.book.specs.Tables.{tables_of};
ghost use Rattle.book.specs.TablesLaws.{Holds};
ghost use Rattle.machine.specs.Run.{sound_prefix};
ghost use Rattle.certificate.specs.Certificate.{is_right};
ghost use Rattle.certificate.specs.Sentences.{sentence_at, sentences_at, sentences_in};
ghost use Rattle.certificate.specs.SentencesLaws.{spelled_end};
ghost use Rattle.certificate.specs.Wrong.{Admitted, LowestWrong};

use book::{Sizes, refuse_if};
use lists::{admit, symbol_row};
use machine::DEPTH;
use number::{Cause, Cursor, Refusal};
use walk::LIMIT;
use within::reaches;

// The sentence at an offset; answers where it ends, or refusal 1, 2, 7 or 8 with its offset.
fn sentence_at(bytes: &[u8], at: usize, t: usize) -> Result<usize, Refusal>
    ensures { result ≡ ends (sentence_at t bytes.now at) }
{
    let (len, next) = admit(Cursor { at }.read(bytes), 0, 1001, Cause::Length, at)?;
    symbol_row(bytes, next.at, len as usize, t)
}

// The sentences of all pairs; answers where they end, or the refusal.
fn sentence_row(bytes: &[u8], pairs: &[u16], t: usize) -> Result<usize, Refusal>
    ensures { result ≡ spelled_end (sentences_at t bytes.now pairs.now 0) }
{
    let mut at: usize = 0;
    for claim in pairs {
        if *claim <= LIMIT {
            at = sentence_at(bytes, at, t)?;
        }
    }
    Ok(at)
}

// Where the sentences of the pairs with these claims end, or refusal 1, 2, 7 or 8, or 6 where something follows.
pub fn check_sentences(bytes: &[u8], pairs: &[u16], t: usize) -> Result<usize, Refusal>
    ensures { result ≡ spelled_end (sentences_in t bytes.now pairs.now) }
{
    let at = sentence_row(bytes, pairs, t)?;
    refuse_if(at < bytes.len(), Cause::Surplus, at)?;
    Ok(at)
}

// Whether the sentence of the pair of index k has its claimed length and reaches its pair within a run's limits.
fn is_right(
    cells: &[u16],
    d: Sizes,
    sentence: &[u8],
    k: usize,
    claim: u16,
    stack: &mut [u16],
) -> bool
    requires holds { Holds d cells.now }
    requires sentence_value { sound_prefix d.t sentence.now ≡ length sentence.now }
    requires k_bound { k < d.s * d.t }
    requires in_bounds { 1024 ≤ length stack.old }
    ensures value { result ≡ is_right (tables_of cells.now) sentence.now (k % d.t) (k / d.t) claim }
    ensures stack_len_unchanged { length stack.new ≡ length stack.old }
{
    if sentence.len() != claim as usize {
        return false;
    }
    let z = (k % d.t) as u16;
    let s = (k / d.t) as u16;
    reaches(cells, d, sentence, z, s, stack)
}

// The index of the first pair whose sentence is not right, or the number of pairs; the sentences were checked.
pub fn lowest_sentence(cells: &[u16], d: Sizes, bytes: &[u8], pairs: &[u16]) -> usize
    requires holds { Holds d cells.now }
    requires pairs_len { length pairs.now ≡ d.s * d.t }
    requires admitted { Admitted d.t bytes.now pairs.now }
    ensures { LowestWrong (tables_of cells.now) d.t bytes.now pairs.now result }
{
    let mut stack = [0u16; DEPTH];
    let mut at: usize = 0;
    for (k, claim) in pairs.iter().enumerate() {
        if *claim <= LIMIT {
            let Ok((len, next)) = Cursor { at }.read(bytes) else {
                return k;
            };
            let start = next.at;
            at = start + len as usize;
            if !is_right(cells, d, &bytes[start..at], k, *claim, &mut stack) {
                return k;
            }
        }
    }
    pairs.len()
}
