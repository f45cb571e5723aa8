// Compares the library's maps, sentences and sets, and the reductions that break, with a second finder made another way, on every pair of
// the books in standard input, and its judgements of lists of that finder's sentences; and checks the lines of 'Two small books' that are
// not marked to be proved. The books:
// - Bracket and Double;
// - two of one terminal, whose empty runs spin and are deep;
// - one of no nonterminal;
// - one with loops, in which some pairs are unreached;
// - one whose pairs have sentences of up to 1,000 symbols, and of 1,001, which are long;
// - 36 random tables of up to 4 terminals, 3 nonterminals and 6 states, in 7 of which some sentences are longer than what is tried;
// - 4 random tables of 6 terminals, and one of 8 terminals, 8 nonterminals and 32 states, which needs 32,768 work cells;
// - one in which a reduction breaks after 1,000 symbols and another after 1,001;
// - one in which a pair is reached by 26 symbols and passed until its reduction breaks after 156.
// The random tables have empty productions, reductions that loop or stack states for ever, missing gotos, and reductions of more states
// than are stacked.
#![tactic(auto)]

mod agree;
mod answers;
mod breaking;
mod failing_pairs;
mod follow;
mod judged;
mod lines;
mod pops;
mod sentences;
mod tables;
mod verdicts;
mod wrong;

use agree::Tally;
use wrong::Wrong;

// The most cells that a book has.
const MOST: usize = 8485;

fn sum(a: Tally, b: Tally) -> Tally {
    Tally {
        compared: a.compared.wrapping_add(b.compared),
        other: a.other.wrapping_add(b.other),
        open: a.open.wrapping_add(b.open),
    }
}

// Bytes that are not a book are not compared.
fn compared(bytes: &[u8], cells: &mut [u16]) -> Tally {
    match book::read(bytes, cells) {
        Ok(n) if n <= cells.len() => agree::book(&cells[..n], Wrong::Nothing),
        Ok(_) => Tally::default(),
        Err(r) => {
            trial::refusal(r);
            trial::text(b"\n");
            Tally::default()
        }
    }
}

fn books(bytes: &[u8], cells: &mut [u16]) -> Tally {
    let mut total = Tally::default();
    let mut at: usize = 0;
    while at < bytes.len() {
        trial::text(b"book:");
        let part = trial::part_at(bytes, at);
        total = sum(total, compared(&bytes[part.start..part.end], cells));
        at = part.end;
    }
    total
}

fn bracket(cells: &mut [u16]) {
    let _ = book::read(
        b"\x01\x04\x01\x06\x02\x00\x01\x00\x03\x00\x04\x06\x00\x03\x00\x00\x03\x00\x04\x06\x00\x01\x00\x00\x00\x00\x00\x00\x0c\x05\x00\x00\x05\x04\x00\x05\x00\x00\x00",
        cells,
    );
}

fn main() {
    let mut bytes = io::large_buffer();
    let n = io::read_full(0, &mut bytes);
    let mut cells = [0u16; MOST];
    let total = books(&bytes[..n], &mut cells);
    trial::text(b"all books:");
    agree::tell(total);
    lines::books();
    let mut few = [0u16; 39];
    bracket(&mut few);
    lines::lists(&few);
    wrong::bracket(&few);
    few[35] = 0;
    wrong::breaks(&few);
}
