// A book's tables, read from its cells by other code than the library's. They are laid out as three grids of 32 rows of 8 numbers each:
// actions, gotos, and productions with left side and length.
ghost use Rattle.std.specs.Prelude.{◌+◌, ◌<◌, ◌≤◌};

const GOTOS: usize = 256;

const PRODUCTIONS: usize = 512;

// The number at a place, 0 past the end.
pub fn number_at(cells: &[u16], at: usize) -> u16 {
    if at < cells.len() { cells[at] } else { 0 }
}

// Lays out rows of numbers, which stand one after another in the cells from a place on. Answers the place after them.
pub fn lay_out(
    cells: &[u16],
    from: usize,
    rows: usize,
    width: usize,
    to: &mut [u16; 768],
    base: usize,
) -> usize
    requires { (from ≤ 4096) × (rows ≤ 32) × (base ≤ 512) }
    ensures { result ≤ from + 256 }
{
    let mut at = from;
    for k in 0..rows * 8 {
        if k % 8 < width {
            to[base + k] = number_at(cells, at);
            at += 1;
        }
    }
    at
}

// The tables of a book of t terminals, n nonterminals, s states and p productions.
pub fn tables_of(cells: &[u16], t: usize, n: usize, s: usize, p: usize) -> [u16; 768]
    requires { (s ≤ 32) × (p ≤ 32) }
{
    let mut tables = [0u16; 768];
    let first = lay_out(cells, 5, p, 2, &mut tables, PRODUCTIONS);
    let second = lay_out(cells, first, s, t, &mut tables, 0);
    lay_out(cells, second, s, n, &mut tables, GOTOS);
    tables
}

// A number of the grid that begins at base.
fn entry(tables: &[u16; 768], base: usize, row: usize, column: usize) -> u16
    requires { base ≤ 512 }
{
    if row >= 32 || column >= 8 {
        return 0;
    }
    tables[base + row * 8 + column]
}

// What an action does: shifts to a state, or reduces a production.
#[derive(Clone, Copy)]
pub enum Act {
    Error,
    Accept,
    Shift(u16),
    Reduce(u16),
}

pub fn action(tables: &[u16; 768], q: u16, a: usize) -> Act {
    let code = entry(tables, 0, usize::from(q), a);
    if code == 0 {
        return Act::Error;
    }
    if code == 1 {
        return Act::Accept;
    }
    let v = code / 2 - 1;
    if code % 2 == 0 {
        Act::Shift(v)
    } else {
        Act::Reduce(v)
    }
}

// The action of pair k, which is (k / 8, k % 8).
pub fn action_of(tables: &[u16; 768], k: usize) -> Act
    requires { k < 256 }
{
    action(tables, (k / 8) as u16, k % 8)
}

pub fn is_error(tables: &[u16; 768], k: usize) -> bool
    requires { k < 256 }
{
    matches!(action_of(tables, k), Act::Error)
}

pub fn reduces(tables: &[u16; 768], k: usize) -> bool
    requires { k < 256 }
{
    matches!(action_of(tables, k), Act::Reduce(_))
}

pub fn goto_of(tables: &[u16; 768], q: u16, x: u16) -> Option<u16> {
    entry(tables, GOTOS, usize::from(q), usize::from(x)).checked_sub(1)
}

pub fn left_side(tables: &[u16; 768], p: u16) -> u16 {
    entry(tables, PRODUCTIONS, usize::from(p), 0)
}

pub fn length_of(tables: &[u16; 768], p: u16) -> usize {
    usize::from(entry(tables, PRODUCTIONS, usize::from(p), 1))
}
