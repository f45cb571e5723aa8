// A run of the machine.
ghost use Rattle.std.specs.Prelude.{◌≡◌};
ghost use Rattle.machine.specs.Run.{running};
ghost use Rattle.told.specs.Told.{told_ran};

#[unsafe(no_mangle)]
pub extern "C" fn purlquartz_run(
    cells: &[u16],
    sentence: &[u8],
    lookahead: u16,
    stack: &mut [u16],
    answer: &mut [u64; 8],
)
    ensures answer_after { answer.new ≡ told_ran (running cells.now sentence.now lookahead stack.old).0 }
    ensures stack_after { stack.new ≡ (running cells.now sentence.now lookahead stack.old).1 }
{
    purlquartz::purlquartz_run(cells, sentence, lookahead, stack, answer)
}
