// The words of a reading.
ghost use Rattle.std.specs.Prelude.{◌≡◌, length};
ghost use Rattle.refusal.specs.Outcome.{outcome_of};
ghost use Rattle.refusal.specs.Lent.{fitting, length_of, lent_after};
ghost use Rattle.analyser.specs.Analyses.{analysed_words};

use reading::Analysed;
use refusal::Refusal;
use refusal::lent::lend;

// Its mark, and the bits of its float.
pub fn lend_reading(analysed: Analysed, lent: &mut [u32]) -> Result<usize, Refusal>
    ensures answer { outcome_of result ≡ length_of (fitting (length lent.old) (analysed_words analysed.value analysed.limit)) }
    ensures after { lent.new ≡ lent_after (fitting (length lent.old) (analysed_words analysed.value analysed.limit)) lent.old }
{
    let reading = analysed.to_reading()?;
    let words = reading.words()?;
    let answer = [words.mark, words.bits];
    lend(&answer, lent)
}
