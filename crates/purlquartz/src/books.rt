// The table book: read, checked, written, converted.
ghost use Rattle.std.specs.Prelude.{◌≡◌};
ghost use Rattle.book.specs.Book.{of_cells, checked as answered, reading, writing};
ghost use Rattle.forms.specs.Forms.{to_form_1, to_form_2};
ghost use Rattle.told.specs.Told.{told_written, told_checked};

use told::{tell_checked, tell_written};

pub fn purlquartz_read(bytes: &[u8], cells: &mut [u16], answer: &mut [u64; 8])
    ensures answer_after { answer.new ≡ told_written (reading bytes.now cells.old).0 }
    ensures cells_after { cells.new ≡ (reading bytes.now cells.old).1 }
{
    *answer = tell_written(book::read(bytes, cells));
}

pub fn purlquartz_check(cells: &[u16], answer: &mut [u64; 8])
    ensures { answer.new ≡ told_checked (answered (of_cells cells.now)) }
{
    *answer = tell_checked(book::check(cells));
}

pub fn purlquartz_write(cells: &[u16], bytes: &mut [u8], answer: &mut [u64; 8])
    ensures answer_after { answer.new ≡ told_written (writing cells.now bytes.old).0 }
    ensures bytes_after { bytes.new ≡ (writing cells.now bytes.old).1 }
{
    *answer = tell_written(book::write(cells, bytes));
}

pub fn purlquartz_to_form_1(cells: &[u16], lent: &mut [u16], answer: &mut [u64; 8])
    ensures answer_after { answer.new ≡ told_written (to_form_1 cells.now lent.old).0 }
    ensures lent_after { lent.new ≡ (to_form_1 cells.now lent.old).1 }
{
    *answer = tell_written(forms::to_form_1(cells, lent));
}

pub fn purlquartz_to_form_2(cells: &[u16], lent: &mut [u16], answer: &mut [u64; 8])
    ensures answer_after { answer.new ≡ told_written (to_form_2 cells.now lent.old).0 }
    ensures lent_after { lent.new ≡ (to_form_2 cells.now lent.old).1 }
{
    *answer = tell_written(forms::to_form_2(cells, lent));
}
