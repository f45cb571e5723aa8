// Listings at and past the limits, of what is no book, of books in which reductions break, and of an input that is longer than the program
// reads. In standard input stand a book of 326 bytes, whose last state takes 1,024 symbols, one of 253 bytes, in which a reduction breaks
// after 1,000 symbols and another after 1,001, and zeros up to 70,000 bytes.
#![tactic(auto)]

mod breaking;
mod ring;

const BOOK: usize = 326;

const NEXT: usize = 579;

fn title(text: &[u8]) {
    io::write_all(1, text);
    io::write_all(1, b"\n");
}

fn list(text: &[u8], bytes: &[u8]) {
    title(text);
    printing::print_listing(bytes);
}

// The books in standard input, each alone.
fn books(bytes: &[u8]) {
    if bytes.len() < NEXT {
        return;
    }
    list(b"the book alone", &bytes[..BOOK]);
    list(b"the book after it", &bytes[BOOK..NEXT]);
}

fn input() {
    let mut bytes = io::large_buffer();
    let n = io::read_full(0, &mut bytes);
    list(b"more than 65,536 bytes", &bytes[..n]);
    books(&bytes[..n]);
}

fn main() {
    title(b"T 8, N 8, S 32");
    ring::list(8);
    title(b"T 8, N 9, S 32");
    ring::list(9);
    list(b"form 3", b"\x03\x01\x00\x01\x00\x01");
    list(
        b"form 2, with ranks 2, 1, 0",
        b"\x02\x03\x02\x08\x04\x00\x02\x00\x03\x01\x01\x01\x02\x02\x01\x00\x00\x04\x00\x00\x0a\x07\x01\x00\x00\x00\x0c\x0e\x00\x09\x09\x03\x00\x00\x00\x00\x10\x05\x00\x00\x03\x04\x00\x00\x00\x00\x00\x00\x00\x00\x00\x00\x00\x00\x00\x00",
    );
    list(
        b"a rank used twice",
        b"\x02\x03\x02\x08\x04\x00\x02\x00\x03\x01\x01\x01\x02\x02\x01\x02\x00\x04\x00\x00\x0a\x07\x01\x00\x00\x00\x0c\x0e\x00\x09\x09\x03\x00\x00\x00\x00\x10\x05\x00\x00\x03\x04\x00\x00\x00\x00\x00\x00\x00\x00\x00\x00\x00\x00\x00\x00",
    );
    list(b"cut off", b"\x01\x01\x00\x01\x00");
    list(b"nothing", b"");
    breaking::list_all();
    input();
}
