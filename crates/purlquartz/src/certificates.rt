// The certificate of a book's map, checked.
ghost use Rattle.std.specs.Prelude.{◌≡◌};
ghost use Rattle.certificate.specs.Verdict.{checking};
ghost use Rattle.told.specs.Told.{told_verdict};

use told::tell_verdict;

pub fn purlquartz_check_certificate(
    cells: &[u16],
    crossings: &[u16],
    pairs: &[u16],
    sentences: &[u8],
    answer: &mut [u64; 8],
)
    ensures { answer.new ≡ told_verdict (checking cells.now crossings.now pairs.now sentences.now) }
{
    *answer = tell_verdict(certificate::check_certificate(cells, crossings, pairs, sentences));
}
