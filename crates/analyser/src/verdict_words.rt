// The words of the four verdicts.
ghost use Rattle.std.specs.Prelude.{◌≡◌, length};
ghost use Rattle.refusal.specs.Outcome.{outcome_of};
ghost use Rattle.refusal.specs.Lent.{fitting, length_of, lent_after};
ghost use Rattle.analyser.specs.Analyses.{judged_words};

use refusal::Refusal;
use refusal::lent::lend;

// Their numbers, in document 01's order, of a record.
pub fn lend_verdicts(words: &[u32], lent: &mut [u32]) -> Result<usize, Refusal>
    ensures answer { outcome_of result ≡ length_of (fitting (length lent.old) (judged_words words.now)) }
    ensures after { lent.new ≡ lent_after (fitting (length lent.old) (judged_words words.now)) lent.old }
{
    let four = judge::judge(words)?;
    let answer = four.numbers();
    lend(&answer, lent)
}
