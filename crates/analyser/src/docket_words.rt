// The words of a docket: where it stands, its count, and the words of its last record.
ghost use Rattle.std.specs.Prelude.{◌≡◌, length};
ghost use Rattle.refusal.specs.Outcome.{outcome_by};
ghost use Rattle.record.specs.Record.{record_words};
ghost use Rattle.docket.specs.Terms.{docket_of};
ghost use Rattle.analyser.specs.DocketWords.{docket_words, docket_from};

use docket::{Docket, State};
use record::WORDS;
use refusal::Refusal;

// Where they stand in the words, and how many there are.
const STATE: usize = 0;

const COUNT: usize = 1;

const RECORD: usize = 2;

const LENGTH: usize = RECORD + WORDS;

// The words of a docket. How long its record is, is said for the callers: where the docket is an answer, they do not know it.
pub fn words_of(docket: Docket) -> [u32; LENGTH]
    ensures words { result ≡ docket_words (docket_of docket) }
    ensures whole { length (docket_of docket).held ≡ record_words }
{
    let mut words = [0u32; LENGTH];
    words[STATE] = docket.state.number();
    words[COUNT] = docket.count;
    words[RECORD..].copy_from_slice(&docket.held);
    words
}

// The docket that a lent slice holds in its first words.
pub fn docket_in(lent: &[u32]) -> Result<Docket, Refusal>
    ensures { outcome_by docket_of result ≡ docket_from lent.now }
{
    if lent.len() < LENGTH {
        return Err(Refusal::OutputLength);
    }
    let state = State::try_from(lent[STATE])?;
    let mut held = [0u32; WORDS];
    held.copy_from_slice(&lent[RECORD..LENGTH]);
    Ok(Docket {
        state,
        count: lent[COUNT],
        held,
    })
}
