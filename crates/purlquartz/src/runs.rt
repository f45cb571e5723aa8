// A run of the machine.
ghost use Rattle.std.specs.Prelude.{◌≡◌};
ghost use Rattle.machine.specs.Run.{running};
ghost use Rattle.told.specs.Told.{told_ran};

use told::tell_ran;

pub fn purlquartz_run(
    cells: &[u16],
    sentence: &[u8],
    lookahead: u16,
    stack: &mut [u16],
    answer: &mut [u64; 8],
)
    ensures answer_after { answer.new ≡ told_ran (running cells.now sentence.now lookahead stack.old).0 }
    ensures stack_after { stack.new ≡ (running cells.now sentence.now lookahead stack.old).1 }
{
    *answer = tell_ran(machine::run(cells, sentence, lookahead, stack));
}
