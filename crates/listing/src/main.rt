// Reads a book from standard input, its first 65,536 bytes, and prints its listing, or its refusal.
#![tactic(auto)]

fn main() {
    let mut bytes = io::large_buffer();
    let n = io::read_full(0, &mut bytes);
    printing::print_listing(&bytes[..n]);
}
