// A reading in range with its amounts, by one match on its enum.
ghost use Rattle.std.specs.Prelude.{◌≡◌};
ghost use Rattle.reading.specs.Readings.{InRange};
ghost use Rattle.reading.specs.Analytes.{analyte_of};

use crate::{Analyte, Mass, Reading, rounding};

// Document 01's forms: 'The enum for a reading has cases holding f32; conversion and verdicts match on it', and for half a
// limit 'f32 multiplication with the stated exact case, then bits taken apart to whole µg/L', to tenths of one since document
// 02 (i). Every amount is made here, that of a record's reading and that of a reading made by hand, and beside it that of the
// limit itself, which the checks need since (vi); the range is tested before, once.
pub fn of_reading(reading: Reading) -> Analyte
    requires { InRange reading }
    ensures { result ≡ analyte_of reading }
{
    match reading {
        Reading::Missing => Analyte {
            reading,
            mass: Mass(0),
            limit: Mass(0),
        },
        Reading::Measured(value) => Analyte {
            reading,
            mass: Mass(rounding::mass_of_value(value)),
            limit: Mass(0),
        },
        Reading::Below(limit) => Analyte {
            reading,
            mass: Mass(rounding::mass_of_value(limit * 0.5)),
            limit: Mass(rounding::mass_of_value(limit)),
        },
    }
}
