// The words of a line.
use number::Refusal;

pub fn text(s: &[u8]) {
    io::write_all(1, s);
}

pub fn line(s: &[u8]) {
    text(s);
    text(b"\n");
}

// Words and a number.
pub fn label(s: &[u8], n: usize) {
    text(s);
    io::print_decimal(1, n as u64);
}

// The same for a byte and for a mask.
fn byte(s: &[u8], v: u8) {
    label(s, v as usize);
}

pub fn word(s: &[u8], v: u32) {
    label(s, v as usize);
}

pub fn refusal(r: Refusal) {
    byte(b" refused ", r.cause.number());
    label(b" place ", r.place);
}

pub fn bytes(s: &[u8]) {
    for v in s {
        byte(b" ", *v);
    }
}
