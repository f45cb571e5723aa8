// Rows that can be passed over: a flag for each state and terminal, 0 only where no walk of one transition or more begins.
ghost use Rattle.std.specs.Prelude.{false, ◌≡◌, ◌<◌};
ghost use Rattle.book.specs.Tables.{tables_of};
ghost use Rattle.book.specs.TablesLaws.{Holds};
ghost use Rattle.walk.specs.WalkLaws.{Opens};
ghost use Rattle.layers.specs.Opening.{Unopened, OpenRows};

use book::{Action, Sizes, action_at, production_length};

// Whether a walk of one transition or more can begin in q under a: by a shift or an empty reduction.
fn opens(cells: &[u16], d: Sizes, q: usize, a: usize) -> bool
    requires holds { Holds d cells.now }
    requires q_lt_s { (q < d.s) × (a < d.t) }
    ensures { result ≡ false → ¬ Opens (tables_of cells.now) q a }
{
    match action_at(cells, d, q, a) {
        Action::Shift(_) => true,
        Action::Reduce(p) => production_length(cells, d, p as usize) == 0,
        Action::Error => false,
        Action::Accept => false,
    }
}

// The flag of cell k.
fn flag(cells: &[u16], d: Sizes, k: usize) -> u8
    requires { Holds d cells.now }
    ensures { result ≡ 0 → Unopened d (tables_of cells.now) k }
{
    let q = k / 32;
    let a = k % 32;
    if q >= d.s || a >= d.t {
        return 0;
    }
    if opens(cells, d, q, a) { 1 } else { 0 }
}

// The flags of a book, which serve every crossing table of it.
pub fn open_rows(cells: &[u16], d: Sizes, rows: &mut [u8; 4096])
    requires { Holds d cells.now }
    ensures { OpenRows d (tables_of cells.now) rows.new }
{
    *rows = [0; 4096];
    for k in 0..d.s * 32 {
        rows[k] = flag(cells, d, k);
    }
}
