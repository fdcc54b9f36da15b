// A batch's own tests, without judging it.
ghost use Rattle.std.specs.Prelude.{◌≡◌};
ghost use Rattle.refusal.specs.Outcome.{outcome_of};
ghost use Rattle.batch.specs.Steps.{samples_test};

use crate::walk::Samples;
use refusal::Refusal;

// Tests the samples' section. The words are all that is left of the batch.
pub fn test_samples(words: &[u32]) -> Result<(), Refusal>
    ensures { outcome_of result ≡ samples_test words.now }
{
    let mut samples = Samples::of(words)?;
    while let Some(record) = samples.next()? {
        let tested = judge::test(record);
        tested?;
    }
    Ok(())
}
