// A list whose numbers have one byte each, but for its article numbers, with its entries in another order, or some of them.
//
// Order k exchanges, for each place i in turn, its entry with that of place i + k % (n - i), and divides k by n - i, where n is how many entries
// there are, at most eight: the first n! orders are all orders.
//
// Split k of two lists takes the digits of k with some base, the lowest first, for the entries of both in turn: 0 leaves the entry to the first list
// alone, 1 to the second alone, 2 to both, 3 to none. With base b the first b^n splits are all splits of lists of n entries.
ghost use Rattle.std.specs.Prelude.{◌≤◌, ◌<◌};

// The byte at a place, 0 past the end.
fn byte_at(s: &[u8], at: usize) -> u8 {
    if at < s.len() { s[at] } else { 0 }
}

pub fn put(to: &mut [u8], at: usize, v: u8) {
    if at < to.len() {
        to[at] = v;
    }
}

// How many bytes the article number at a place has; the top bit is set on all but the last.
fn article_size(list: &[u8], at: usize) -> usize
    requires { at < 1024 }
    ensures { result ≤ 3 }
{
    if byte_at(list, at) < 128 {
        1
    } else if byte_at(list, at + 1) < 128 {
        2
    } else {
        3
    }
}

// How many bytes the entry at a place has.
fn entry_size(list: &[u8], from: usize) -> usize
    requires { from < 256 }
    ensures { result < 261 }
{
    let n = usize::from(byte_at(list, from)) + 2;
    n + article_size(list, from + n)
}

// Copies the entry at a place to another; answers the place after it.
fn copy_entry(list: &[u8], from: usize, to: &mut [u8], at: usize) -> usize
    requires { (from < 256) × (at < 256) }
{
    let n = entry_size(list, from);
    for i in 0..n {
        put(to, at + i, byte_at(list, from + i));
    }
    at + n
}

// Where each entry begins.
fn starts(list: &[u8]) -> [u8; 8] {
    let mut starts = [0u8; 8];
    let mut at: usize = 1;
    for start in starts.iter_mut() {
        *start = (at % 256) as u8;
        at = at % 256 + entry_size(list, at % 256);
    }
    starts
}

fn swap(s: &mut [u8], i: usize, j: usize) {
    let v = byte_at(s, i);
    put(s, i, byte_at(s, j));
    put(s, j, v);
}

// Order k of the first n.
fn shuffle(starts: &mut [u8], n: usize, k: usize)
    requires { n < 256 }
{
    let mut rest = k;
    for i in 0..n {
        swap(starts, i, i + rest % (n - i) % 256);
        rest /= n - i;
    }
}

// The list in order k.
pub fn arrange(list: &[u8], k: usize, to: &mut [u8]) {
    let n = usize::from(byte_at(list, 0));
    let mut starts = starts(list);
    shuffle(&mut starts, n, k);
    put(to, 0, byte_at(list, 0));
    let mut at: usize = 1;
    for i in 0..n {
        at = copy_entry(list, usize::from(byte_at(&starts, i)), to, at % 256);
    }
}

// 1 if a digit leaves the entry to the list, 0 for the first and 1 for the second, else 0.
fn left_to(which: usize, digit: usize) -> u8
    ensures { result ≤ 1 }
{
    if digit == which || digit == 2 { 1 } else { 0 }
}

// How many of n entries split k leaves to the list.
fn count_left(which: usize, base: usize, k: usize, n: usize) -> u8
    requires { (0 < base) × (n < 256) }
{
    let mut rest = k;
    let mut count: u8 = 0;
    for _ in 0..n {
        count += left_to(which, rest % base);
        rest /= base;
    }
    count
}

// Copies the entry if it is left to the list; answers the place after it.
fn copy_left(left: u8, list: &[u8], from: usize, to: &mut [u8], at: usize) -> usize
    requires { (from < 256) × (at < 256) }
{
    if left == 0 {
        at
    } else {
        copy_entry(list, from, to, at)
    }
}

// The entries that split k leaves to the list; answers the place after them.
pub fn copy_split(list: &[u8], which: usize, base: usize, k: usize, to: &mut [u8]) -> usize
    requires { 0 < base }
{
    let n = usize::from(byte_at(list, 0));
    put(to, 0, count_left(which, base, k, n));
    let mut rest = k;
    let mut from: usize = 1;
    let mut at: usize = 1;
    for _ in 0..n {
        at = copy_left(left_to(which, rest % base), list, from % 256, to, at % 256);
        from = from % 256 + entry_size(list, from % 256);
        rest /= base;
    }
    at
}
