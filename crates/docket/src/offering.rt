// The ways of an offer: to a docket that is not open, to one that took nothing, and to one that waits for a repeat.
ghost use Rattle.std.specs.Prelude.{◌≡◌, ◌<◌, length, Ok};
ghost use Rattle.judge.specs.Judgements.{numbers_of};
ghost use Rattle.judge.specs.Passing.{all_passed};
ghost use Rattle.judge.specs.Repeats.{record_words};
ghost use Rattle.docket.specs.Terms.{standing_of, docket_of, most_taken};
ghost use Rattle.docket.specs.Offers.{standing_after, taken_offer, offer_of};
ghost use Rattle.docket.specs.After.{offered_by};

use crate::{Docket, MOST, State};
use judge::{Comparison, Verdicts, WORDS};
use refusal::Refusal;

impl Docket {
    // The docket after an offer that it takes, or why it takes none.
    pub fn after(self, words: &[u32]) -> Result<Docket, Refusal>
        ensures { offered_by (docket_of self) result ≡ offer_of (docket_of self) words.now }
    {
        // Closed: nothing is judged or compared, only the record's own tests go before refusal 11.
        if !self.state.is_open() {
            judge::test(words)?;
            return Err(Refusal::DocketClosed);
        }
        // Empty: nothing is held that the record could be compared with.
        if self.count == 0 {
            let verdicts = judge::judge(words)?;
            return Ok(self.take(words, verdicts, false));
        }
        // A repeat is judged and compared with the record held at once, so that each is tested once.
        let repeat = judge::judge_repeat(&self.held, words);
        let verdicts = repeat.judgement?;
        // No offers produce an open docket with a count above 2, or one that holds what is no record.
        if self.count >= MOST {
            return Err(Refusal::DocketClosed);
        }
        match repeat.comparison {
            Ok(Comparison::Agree) => Ok(self.take(words, verdicts, true)),
            Ok(Comparison::Differ) => Ok(self.take(words, verdicts, false)),
            Ok(Comparison::OtherSample) => Err(Refusal::OtherSample),
            Err(_) => Err(Refusal::DocketClosed),
        }
    }

    // The docket after a record with these verdicts, that agrees with the one before it or not: the count rises by one and the
    // record is held.
    fn take(self, words: &[u32], verdicts: Verdicts, confirms: bool) -> Docket
        requires { (length words.now ≡ record_words) × (self.count < most_taken) }
        ensures { offered_by (docket_of self) (Ok result) ≡ taken_offer self.count words.now (all_passed (numbers_of verdicts)) confirms }
    {
        let count = self.count + 1;
        let state = state_after(count, verdicts.all_passed(), confirms);
        let mut held = [0u32; WORDS];
        held.copy_from_slice(words);
        Docket { state, count, held }
    }
}

// Where a docket stands with its count-th record, that passed or not, and agrees with the one before it or not.
// Two answers of yes or no, as the definition has them.
fn state_after(count: u32, passed: bool, confirms: bool) -> State
    ensures { standing_of result ≡ standing_after count passed confirms }
{
    if passed {
        State::Consistent
    } else if confirms {
        State::Confirmed
    } else if count == MOST {
        State::Unsettled
    } else {
        State::Open
    }
}
