// An answer and lent memory in a line.
ghost use Rattle.std.specs.Prelude.{◌≡◌, ◌≤◌, ◌<◌, length};

// The most numbers that are lent.
const MOST: usize = 65536;

// How many of an answer's numbers are printed: those up to the last that is not 0, and the kind.
fn used(answer: &[u64; 8]) -> usize
    ensures { result ≤ 8 }
{
    for k in (1..8).rev() {
        if answer[k] != 0 {
            return k + 1;
        }
    }
    1
}

pub fn answer(call: &[u8], answer: &[u64; 8]) {
    trial::text(call);
    for v in &answer[..used(answer)] {
        trial::text(b" ");
        io::print_decimal(1, *v);
    }
}

// Where the value at a place stands no more.
fn run_end(s: &[u32], start: usize) -> usize
    requires { start < length s.now }
    ensures { (start < result) × (result ≤ length s.now) }
{
    for at in start + 1..s.len() {
        if s[at] != s[start] {
            return at;
        }
    }
    s.len()
}

fn run(value: u32, times: usize) {
    trial::text(b" ");
    if 1 < times {
        trial::label(b"", times);
        trial::text(b"*");
    }
    trial::word(b"", value);
}

// A sum that tells the order.
fn sum(s: &[u32]) -> u64 {
    s.iter()
        .fold(0, |sum, v| (31 * (sum % 65521) + u64::from(*v)) % 65521)
}

// Memory as runs of equal values, `n*v` for n times v; after 64 runs the sum over all of it.
pub fn words(s: &[u32]) {
    trial::text(b" |");
    let mut runs: usize = 0;
    let mut at: usize = 0;
    while at < s.len() {
        if 64 <= runs {
            trial::text(b" .. sum ");
            io::print_decimal(1, sum(s));
            return;
        }
        let end = run_end(s, at);
        run(s[at], end - at);
        at = end;
        runs += 1;
    }
}

fn widen<V: Copy + Into<u32>>(s: &[V], to: &mut [u32]) -> usize
    ensures { result ≤ length to.new }
{
    for (wide, v) in to.iter_mut().zip(s) {
        *wide = (*v).into();
    }
    s.len().min(to.len())
}

fn blank() -> [u32; MOST]
    ensures { 65536 ≡ length result }
{
    [0; MOST]
}

pub fn numbers<V: Copy + Into<u32>>(s: &[V]) {
    let mut wide = blank();
    let n = widen(s, &mut wide);
    words(&wide[..n]);
}

// The sum alone.
pub fn sum_of(s: &[u8]) {
    let mut wide = blank();
    let n = widen(s, &mut wide);
    io::print_decimal(1, sum(&wide[..n]));
}
