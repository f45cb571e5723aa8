// Words and numbers put at a place of a lent buffer; each answers the place after.
ghost use Rattle.std.specs.Prelude.{[], ◌∷◌, map, ◌≡◌, ◌+◌, ◌*◌, ◌≤◌, length, drop, take};
ghost use Rattle.text.specs.Decimal.{decimal};
ghost use Rattle.text.specs.Text.{spaced, line};
ghost use Rattle.text.specs.Put.{Put};

pub fn put(word: &[u8], out: &mut [u8], at: usize) -> usize
    requires { at + length word.now ≤ length out.old }
    ensures { Put word.now out.old at out.new result }
{
    let end = at + word.len();
    out[at..end].copy_from_slice(word);
    end
}

// The decimal digits of n, at the end of the text; answers where they begin.
fn spell(n: usize, text: &mut [u8; 20]) -> usize
    requires { length text.old ≡ 20 }
    ensures { (length text.new ≡ 20) × (result ≤ 20) × (drop result text.new ≡ decimal n) }
{
    let mut rest = n;
    for i in (0..20).rev() {
        text[i] = 48 + (rest % 10) as u8;
        if rest < 10 {
            return i;
        }
        rest /= 10;
    }
    0
}

pub fn put_number(n: usize, out: &mut [u8], at: usize) -> usize
    requires { at + length (decimal n) ≤ length out.old }
    ensures { Put (decimal n) out.old at out.new result }
{
    let mut text = [0u8; 20];
    let start = spell(n, &mut text);
    put(&text[start..], out, at)
}

// A space and a word.
pub fn put_next_word(word: &[u8], out: &mut [u8], at: usize) -> usize
    requires { at + 1 + length word.now ≤ length out.old }
    ensures { Put (32 ∷ word.now) out.old at out.new result }
{
    out[at] = b' ';
    put(word, out, at + 1)
}

// A space and a number.
pub fn put_next(n: usize, out: &mut [u8], at: usize) -> usize
    requires { at + 1 + length (decimal n) ≤ length out.old }
    ensures { Put (32 ∷ decimal n) out.old at out.new result }
{
    out[at] = b' ';
    put_number(n, out, at + 1)
}

// The first n symbols of a sentence, each after a space.
pub fn put_symbols(sentence: &[u8], n: usize, out: &mut [u8], at: usize) -> usize
    requires { (n ≤ length sentence.now) × (at + 4 * n ≤ length out.old) }
    ensures put { Put (spaced (map decimal (take n sentence.now))) out.old at out.new result }
    ensures upper_bound { result ≤ at + 4 * n }
{
    let mut next = at;
    for symbol in &sentence[..n] {
        next = put_next(*symbol as usize, out, next);
    }
    next
}

// Two words, each with a number after it, and the line's end.
pub fn put_two(label: &[u8], n: usize, second: &[u8], m: usize, out: &mut [u8], at: usize) -> usize
    requires { (length label.now ≤ 8) × (length second.now ≤ 8) × (at + 64 ≤ length out.old) }
    ensures put { Put (line label.now (decimal n ∷ second.now ∷ decimal m ∷ [])) out.old at out.new result }
    ensures upper_bound { result ≤ at + 64 }
{
    let labelled = put(label, out, at);
    let counted = put_next(n, out, labelled);
    let named = put_next_word(second, out, counted);
    let last = put_next(m, out, named);
    put(b"\n", out, last)
}
