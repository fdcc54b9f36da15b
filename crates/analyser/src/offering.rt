// An offer to a docket lent as words.
ghost use Rattle.std.specs.Prelude.{◌≡◌};
ghost use Rattle.refusal.specs.Outcome.{outcome_of};
ghost use Rattle.refusal.specs.Lent.{length_of, lent_after};
ghost use Rattle.analyser.specs.LentDockets.{offered_words};

use crate::docket_words;
use refusal::Refusal;
use refusal::lent::lend;

// Where it is taken, the words become those of the docket after it.
pub fn offer(lent: &mut [u32], words: &[u32]) -> Result<usize, Refusal>
    ensures answer { outcome_of result ≡ length_of (offered_words lent.old words.now) }
    ensures after { lent.new ≡ lent_after (offered_words lent.old words.now) lent.old }
{
    let before = match docket_words::docket_in(lent) {
        Ok(before) => before,
        Err(why) => {
            // The record's own refusal goes before that of the lent words.
            judge::test(words)?;
            return Err(why);
        }
    };
    let after = before.after(words)?;
    let answer = docket_words::words_of(after);
    lend(&answer, lent)
}
