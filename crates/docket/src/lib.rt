// Follows the repeats of a sample on a docket (document 01, 'The docket'): a record is offered, and is taken or refused;
// at most three are taken. A layer above the judge, which rests on what the judge promises and, for
// answers, on `refusal`.
#![tactic(auto)]

mod offering;

ghost use Rattle.std.specs.Prelude.{◌≡◌, Some};
ghost use Rattle.refusal.specs.Outcome.{outcome_by};
ghost use Rattle.docket.specs.Terms.{standing_of, is_open, docket_of, offered_of};
ghost use Rattle.docket.specs.Numbers.{standing_number, standing_from, standing_word};
ghost use Rattle.docket.specs.Offers.{offer_of};
ghost use Rattle.docket.specs.Following.{Fresh, ListTheorem};

use refusal::Refusal;
use std::fmt;

// How many analyses a docket takes at most.
pub const MOST: u32 = 3;

// Where a docket stands: document 01's terms.
#[derive(Clone, Copy, Debug, PartialEq, Eq)]
pub enum State {
    Open,
    Consistent,
    Confirmed,
    Unsettled,
}

// A docket: where it stands, how many analyses it took, and the last record it took. The form that document 01 names:
// a struct by value holding the last record's words in an array.
#[derive(Clone, Copy, Debug, PartialEq, Eq)]
pub struct Docket {
    pub state: State,
    pub count: u32,
    pub held: [u32; judge::WORDS],
}

// The docket after an offer, and the answer: that it was taken, or why not.
#[derive(Clone, Copy, Debug, PartialEq, Eq)]
pub struct Offered {
    pub docket: Docket,
    pub answer: Result<(), Refusal>,
}

impl State {
    // The place of a state in document 01's order, from 0.
    pub fn number(self) -> u32
        ensures { result ≡ standing_number (standing_of self) }
    {
        self as u32
    }

    fn is_open(self) -> bool
        ensures { result ≡ is_open (standing_of self) }
    {
        self == State::Open
    }
}

// The state of that place. No offers produce a docket with another number, so it is refused as they are.
impl TryFrom<u32> for State {
    type Error = Refusal;

    ghost try_from_gives = { λ n r. outcome_by standing_of r ≡ standing_from n };

    fn try_from(number: u32) -> Result<State, Refusal> {
        match number {
            0 => Ok(State::Open),
            1 => Ok(State::Consistent),
            2 => Ok(State::Confirmed),
            3 => Ok(State::Unsettled),
            _ => Err(Refusal::DocketClosed),
        }
    }
}

// The word that document 01 has for a state.
impl fmt::Display for State {
    ghost output = { λ state. Some (standing_word (standing_of state)) };

    fn fmt<W: fmt::Write>(&self, f: &mut fmt::Formatter<W>) -> fmt::Result {
        f.write_str(match self {
            State::Open => "open",
            State::Consistent => "consistent",
            State::Confirmed => "confirmed",
            State::Unsettled => "unsettled",
        })
    }
}

// A docket that took nothing. The record it holds is left open: the one thing of this crate that is stated by a property.
// The second promise is the claim about every list of offers.
pub fn fresh() -> Docket
    ensures empty { Fresh (docket_of result) }
    ensures followed { ListTheorem }
{
    Docket {
        state: State::Open,
        count: 0,
        held: [0u32; judge::WORDS],
    }
}

// Offers a record to a docket. A refused offer returns the docket as it was.
pub fn offer(docket: Docket, words: &[u32]) -> Offered
    ensures { offered_of result ≡ offer_of (docket_of docket) words.now }
{
    match docket.after(words) {
        Ok(after) => Offered {
            docket: after,
            answer: Ok(()),
        },
        Err(why) => Offered {
            docket,
            answer: Err(why),
        },
    }
}
