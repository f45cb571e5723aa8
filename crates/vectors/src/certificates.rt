// The call that checks a certificate. The cells are those of the book, then of its crossings, then of its pairs, one after the other, and the
// bytes are the sentences.
//
//   check_certificate n k m      n cells of the book, k crossings and m pairs
use purlquartz::purlquartz_check_certificate;
use script::{room, say};

fn check(cells: &[u16], crossings: &[u16], pairs: &[u16], sentences: &[u8]) {
    let mut answer = [0u64; 8];
    purlquartz_check_certificate(cells, crossings, pairs, sentences, &mut answer);
    say::answer(b"check_certificate", &answer);
}

// The claims are the crossings, and the pairs after them.
fn check_claims(args: &[u32], cells: &[u16], claims: &[u16], sentences: &[u8]) {
    let k = room(args, 1, claims.len());
    let m = room(args, 2, claims.len() - k);
    check(cells, &claims[..k], &claims[k..k + m], sentences);
}

pub fn check_certificate(args: &[u32], cells: &[u16], bytes: &[u8]) {
    let n = room(args, 0, cells.len());
    check_claims(args, &cells[..n], &cells[n..], bytes);
}
