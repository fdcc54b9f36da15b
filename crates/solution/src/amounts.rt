// What the readings of a record stand for, at one end of their ranges.
ghost use Rattle.std.specs.Prelude.{◌≡◌, ◌<◌};
ghost use Rattle.reading.specs.Analytes.{range_in};
ghost use Rattle.record.specs.Record.{readings};
ghost use Rattle.solution.specs.ByValue.{end_of, amount_at};
ghost use Rattle.solution.specs.Ends.{is_greatest};
ghost use Rattle.solution.specs.Steps.{Small, NitrogenOf};

use crate::Nitrogen;
use crate::adding::Summed;
use reading::{Analyte, Mass, MassRange};
use record::READINGS;

// An end of a range.
#[derive(Clone, Copy, Debug, PartialEq, Eq)]
pub enum End {
    Least,
    Greatest,
}

// The readings of a record, each taken for its amount at that end.
#[derive(Clone, Copy)]
// Nothing compares or prints it.
pub struct Amounts {
    pub analytes: [Analyte; READINGS],
    pub end: End,
    // None is above the greatest amount of a reading, so no sum of them is too large for its type.
    pub ghost small: { Small analytes },
}

impl End {
    pub fn of(self, range: MassRange) -> Mass
        ensures { result.0 ≡ end_of (is_greatest self) (range_in range) }
    {
        match self {
            End::Least => range.least,
            End::Greatest => range.most,
        }
    }
}

impl Amounts {
    pub fn at(&self, reading: usize) -> Mass
        requires { reading < readings }
        ensures { result.0 ≡ amount_at (is_greatest self.now.end) self.now.analytes reading }
    {
        self.end.of(self.analytes[reading].range())
    }

    // The two masses of the nitrogen check.
    pub fn nitrogen(&self) -> Nitrogen
        ensures { NitrogenOf (is_greatest self.now.end) self.now.analytes result }
    {
        let nitrate = self.at(record::NITRATE);
        let ammonium = self.at(record::AMMONIUM);
        let mineral = nitrate.plus(ammonium);
        let total = self.at(record::TOTAL_NITROGEN);
        Nitrogen { mineral, total }
    }
}
