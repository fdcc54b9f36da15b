// The refusals of document 01 and of document 02 (iii), each under a name, with the paper's number: the error of every call that
// may refuse.
#![tactic(auto)]

pub mod lent;

ghost use Rattle.std.specs.Prelude.{◌≡◌};
ghost use Rattle.refusal.specs.Numbers.{number_of};

use std::fmt;

// Why a call refuses. 1 to 10 come from the input, 11 to 13 from the state, 14 and 15 from two batches that are joined.
#[derive(Clone, Copy, Debug, PartialEq, Eq)]
pub enum Refusal {
    RecordLength = 1,
    SampleNumber = 2,
    Kind = 3,
    Ph = 4,
    Conductivity = 5,
    Alkalinity = 6,
    Reading = 7,
    BatchLength = 8,
    Count = 9,
    Chart = 10,
    DocketClosed = 11,
    OtherSample = 12,
    OutputLength = 13,
    SetupDiffers = 14,
    JoinedCount = 15,
}

impl Refusal {
    // The paper's number of a refusal.
    pub fn number(self) -> u32
        ensures { result ≡ number_of self }
    {
        self as u32
    }
}

// A refusal as it is printed.
impl fmt::Display for Refusal {
    ghost use Rattle.std.specs.Prelude.{Some};
    ghost use Rattle.refusal.specs.Text.{refusal_text};

    ghost output = { λ why. Some (refusal_text why) };

    fn fmt<W: fmt::Write>(&self, f: &mut fmt::Formatter<W>) -> fmt::Result {
        write!(f, "refused {}", self.number())
    }
}
