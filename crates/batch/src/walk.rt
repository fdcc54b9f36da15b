// The samples' section of a batch, read from the front: one walk, for those who judge the samples and those who only test them.
ghost use Rattle.std.specs.Prelude.{◌≡◌, ◌∷◌, ◌≤◌, ◌<◌, MatchOption, MatchResult, length};
ghost use Rattle.refusal.specs.Outcome.Outcome.{refused};
ghost use Rattle.refusal.specs.Numbers.{number_of};
ghost use Rattle.batch.specs.Batches.{most_samples, samples_of};
ghost use Rattle.batch.specs.Steps.{TakenFrom, NoneFrom};

use crate::MOST_SAMPLES;
use refusal::Refusal;

// How many samples are still to come, and all that is left of the batch.
#[derive(Debug, Drop)]
pub struct Samples<'a> {
    pub left: usize,
    pub rest: &'a [u32],
}

impl<'a> Samples<'a> {
    // Those of a section: its count, and the words after it.
    pub fn of(words: &'a [u32]) -> Result<Samples<'a>, Refusal>
        ensures { MatchResult result (λ s. (words.now ≡ s.left ∷ s.rest.now) × (s.left ≤ most_samples)) (λ why. samples_of words.now ≡ refused (number_of why)) }
    {
        let Some((&count, rest)) = words.split_first() else {
            return Err(Refusal::BatchLength);
        };
        let left = count as usize;
        if left > MOST_SAMPLES {
            return Err(Refusal::Count);
        }
        Ok(Samples { left, rest })
    }

    // The words of the next record; or none, where none is to come and no word is left over.
    pub fn next(&mut self) -> Result<Option<&'a [u32]>, Refusal>
        ensures { MatchResult result (λ o. MatchOption o ((self.old.left ≡ 0) × (length self.old.rest.now ≡ 0)) (λ w. TakenFrom self.old.left self.old.rest.now w.now self.new.left self.new.rest.now)) (λ why. NoneFrom self.old.left self.old.rest.now why) }
    {
        if self.left == 0 {
            return if self.rest.is_empty() {
                Ok(None)
            } else {
                Err(Refusal::BatchLength)
            };
        }
        let Some((record, rest)) = self.rest.split_at_checked(record::WORDS) else {
            return Err(Refusal::BatchLength);
        };
        self.left -= 1;
        self.rest = rest;
        Ok(Some(record))
    }
}
