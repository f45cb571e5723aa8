// The table book: read, checked, written, converted.
ghost use Rattle.std.specs.Prelude.{◌≡◌};
ghost use Rattle.book.specs.Book.{of_cells, checked as answered, reading, writing};
ghost use Rattle.forms.specs.Forms.{to_form_1, to_form_2};
ghost use Rattle.told.specs.Told.{told_written, told_checked};

#[unsafe(no_mangle)]
pub extern "C" fn purlquartz_read(bytes: &[u8], cells: &mut [u16], answer: &mut [u64; 8])
    ensures answer_after { answer.new ≡ told_written (reading bytes.now cells.old).0 }
    ensures cells_after { cells.new ≡ (reading bytes.now cells.old).1 }
{
    purlquartz::purlquartz_read(bytes, cells, answer)
}

#[unsafe(no_mangle)]
pub extern "C" fn purlquartz_check(cells: &[u16], answer: &mut [u64; 8])
    ensures { answer.new ≡ told_checked (answered (of_cells cells.now)) }
{
    purlquartz::purlquartz_check(cells, answer)
}

#[unsafe(no_mangle)]
pub extern "C" fn purlquartz_write(cells: &[u16], bytes: &mut [u8], answer: &mut [u64; 8])
    ensures answer_after { answer.new ≡ told_written (writing cells.now bytes.old).0 }
    ensures bytes_after { bytes.new ≡ (writing cells.now bytes.old).1 }
{
    purlquartz::purlquartz_write(cells, bytes, answer)
}

#[unsafe(no_mangle)]
pub extern "C" fn purlquartz_to_form_1(cells: &[u16], lent: &mut [u16], answer: &mut [u64; 8])
    ensures answer_after { answer.new ≡ told_written (to_form_1 cells.now lent.old).0 }
    ensures lent_after { lent.new ≡ (to_form_1 cells.now lent.old).1 }
{
    purlquartz::purlquartz_to_form_1(cells, lent, answer)
}

#[unsafe(no_mangle)]
pub extern "C" fn purlquartz_to_form_2(cells: &[u16], lent: &mut [u16], answer: &mut [u64; 8])
    ensures answer_after { answer.new ≡ told_written (to_form_2 cells.now lent.old).0 }
    ensures lent_after { lent.new ≡ (to_form_2 cells.now lent.old).1 }
{
    purlquartz::purlquartz_to_form_2(cells, lent, answer)
}
