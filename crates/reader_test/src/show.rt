// What a reader says, in words.
use lists::{Entry, Reader};

// Where a reader begins: how many entries remain, and the refusal, if there is one.
pub fn begun(name: &[u8], r: Reader<'_>) {
    trial::text(name);
    if let Some(refusal) = r.refusal {
        trial::refusal(refusal);
    }
    trial::label(b" remain ", lists::remaining(r));
    trial::text(b"\n");
}

// What one turn gives, and how many remain after it.
pub fn given(list: &[u8], given: Option<Entry>, left: usize) {
    match given {
        None => trial::text(b"  none"),
        Some(e) => {
            trial::label(b"  at ", e.start);
            trial::text(b" symbols");
            trial::bytes(lists::symbols(list, e.start, e.len));
            trial::label(b" lookahead ", e.lookahead);
            trial::word(b" article ", e.article);
        }
    }
    trial::label(b" remain ", left);
    trial::text(b"\n");
}
