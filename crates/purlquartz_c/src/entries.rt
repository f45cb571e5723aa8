// Lists of sentences: checked, their entries by index and one after another, judged, sorted, and joined.
ghost use Rattle.std.specs.Prelude.{◌≡◌};
ghost use Rattle.lists.specs.List.{list_in, listing, next_at, nth_in};
ghost use Rattle.judgement.specs.Judgement.{Judges};
ghost use Rattle.sorting.specs.Sorting.{sorts};
ghost use Rattle.joining.specs.Joining.{joins};
ghost use Rattle.told.specs.Told.{told_listed, told_entry, told_next, told_judged, told_sorted, told_joined, Told};

#[unsafe(no_mangle)]
pub extern "C" fn purlquartz_check_list(cells: &[u16], list: &[u8], answer: &mut [u64; 8])
    ensures { answer.new ≡ told_listed (listing list.now (list_in cells.now list.now)) }
{
    purlquartz::purlquartz_check_list(cells, list, answer)
}

#[unsafe(no_mangle)]
pub extern "C" fn purlquartz_entry(cells: &[u16], list: &[u8], index: usize, answer: &mut [u64; 8])
    ensures { answer.new ≡ told_entry (nth_in index (list_in cells.now list.now)) }
{
    purlquartz::purlquartz_entry(cells, list, index, answer)
}

#[unsafe(no_mangle)]
pub extern "C" fn purlquartz_next_entry(
    list: &[u8],
    offset: usize,
    left: usize,
    answer: &mut [u64; 8],
)
    ensures { answer.new ≡ told_next (next_at list.now offset left) }
{
    purlquartz::purlquartz_next_entry(list, offset, left, answer)
}

#[unsafe(no_mangle)]
pub extern "C" fn purlquartz_judge(
    cells: &[u16],
    list: &[u8],
    work: &mut [u16],
    stack: &mut [u16],
    answer: &mut [u64; 8],
)
    ensures { Told (Judges cells.now list.now work.old stack.old) told_judged answer.new (work.new, stack.new) }
{
    purlquartz::purlquartz_judge(cells, list, work, stack, answer)
}

#[unsafe(no_mangle)]
pub extern "C" fn purlquartz_sort_list(
    cells: &[u16],
    list: &[u8],
    out: &mut [u8],
    answer: &mut [u64; 8],
)
    ensures answer_after { answer.new ≡ told_sorted (sorts cells.now list.now out.old).0 }
    ensures out_after { out.new ≡ (sorts cells.now list.now out.old).1 }
{
    purlquartz::purlquartz_sort_list(cells, list, out, answer)
}

#[unsafe(no_mangle)]
pub extern "C" fn purlquartz_join_lists(
    cells: &[u16],
    first: &[u8],
    second: &[u8],
    out: &mut [u8],
    answer: &mut [u64; 8],
)
    ensures answer_after { answer.new ≡ told_joined (joins cells.now first.now second.now out.old).0 }
    ensures out_after { out.new ≡ (joins cells.now first.now second.now out.old).1 }
{
    purlquartz::purlquartz_join_lists(cells, first, second, out, answer)
}
