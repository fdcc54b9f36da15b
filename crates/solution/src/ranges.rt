// Whether fields are within the ranges of a record.
ghost use Rattle.std.specs.Prelude.{◌≡◌};
ghost use Rattle.record.specs.Tested.{fields_in};
ghost use Rattle.solution.specs.ByValue.{are_small, in_ranges};

use hydrogen::MOST_FLOOR;
use reading::{Analyte, MOST_MASS};
use record::{MOST_ALKALINITY, MOST_CONDUCTIVITY, READINGS, TestedRecord};

pub fn hold(own: TestedRecord, floor: u64) -> bool
    ensures { result ≡ in_ranges (fields_in own) floor }
{
    (floor <= MOST_FLOOR)
        & ((own.conductivity <= MOST_CONDUCTIVITY)
            & ((own.alkalinity <= MOST_ALKALINITY) & are_small(&own.analytes)))
}

// The loop has no way out: of a record that was tested, all of them are.
fn are_small(analytes: &[Analyte; READINGS]) -> bool
    ensures { result ≡ are_small analytes.now }
{
    let mut small = true;
    for analyte in analytes {
        small &= analyte.range().most.0 <= MOST_MASS;
    }
    small
}
