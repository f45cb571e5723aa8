// The memory that is lent to a call.
ghost use Rattle.std.specs.Prelude.{◌≡◌, ◌≤◌, length};

use crate::numbers::size;

// What lent cells and masks hold, and lent bytes; no call writes it.
const CELL: u16 = 43690;

const BYTE: u8 = 170;

const WORD: u32 = 43690;

// The most of each that is lent. Cells and bytes are more than a book can have, and bytes more than two lists of 128 entries of up to 127 symbols.
pub const WORK: usize = 65536;

pub const CELLS: usize = 8600;

pub const BYTES: usize = 17600;

// Enough for the sentences of 32 pairs.
pub const SENTENCE_BYTES: usize = 32768;

pub const MASKS: usize = 200;

pub fn free_work() -> [u16; WORK]
    ensures { 65536 ≡ length result }
{
    [CELL; WORK]
}

pub fn free_cells() -> [u16; CELLS]
    ensures { 8600 ≡ length result }
{
    [CELL; CELLS]
}

pub fn free_bytes() -> [u8; BYTES]
    ensures { 17600 ≡ length result }
{
    [BYTE; BYTES]
}

pub fn free_sentence_bytes() -> [u8; SENTENCE_BYTES]
    ensures { 32768 ≡ length result }
{
    [BYTE; SENTENCE_BYTES]
}

pub fn free_words() -> [u32; MASKS]
    ensures { 200 ≡ length result }
{
    [WORD; MASKS]
}

// So many as the line says, and no more than there are.
pub fn room(args: &[u32], k: usize, most: usize) -> usize
    ensures { result ≤ most }
{
    size(args, k).min(most)
}
