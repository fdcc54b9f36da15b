// The sums of a record at both ends of what its amounts and its hydrogen leave open.
ghost use Rattle.std.specs.Prelude.{◌≡◌, ◌+◌, ◌^◌, ◌<◌};
ghost use Rattle.record.specs.Tested.{fields_in};
ghost use Rattle.solution.specs.Solutions.{gap};
ghost use Rattle.solution.specs.Held.{sum_ranges_in};
ghost use Rattle.solution.specs.ByValue.{sum_ranges_by, sum_ranges_held, no_sum_ranges};
ghost use Rattle.solution.specs.Steps.{Ranged};

use crate::amounts::End;
use crate::{Charge, Solution, ions, one_end, ranges};
use record::TestedRecord;

// The sums of a record, by its fields and the floor of hydrogen at its pH. Fields that no accepted record has give no sums: so
// none can be too large for its type.
// The floor beside the fields, since it promises an answer of any floor, the record's own or another.
pub fn of_fields(own: TestedRecord, floor: u64) -> Solution
    ensures { sum_ranges_in result ≡ sum_ranges_by (fields_in own) floor }
{
    if !ranges::hold(own, floor) {
        return none();
    }
    of_ranged(own, floor)
}

// Of fields within their ranges: hydrogen is its floor at a whole pH, else up to 1 u above it.
// A clause and no type: two functions ask it, and the public one takes any fields.
fn of_ranged(own: TestedRecord, floor: u64) -> Solution
    requires { Ranged (fields_in own) (floor + 1) }
    ensures { sum_ranges_in result ≡ sum_ranges_held (fields_in own) floor }
{
    let whole = hydrogen::is_whole(own.ph);
    let known = ions::are_present(&own.analytes);
    let least = one_end::sums(own, End::Least, Charge(floor));
    let most = one_end::sums(own, End::Greatest, highest(floor, whole));
    Solution {
        known,
        whole,
        least,
        most,
    }
}

// No sums: no ion is known.
// Sums of 0 and no `Option`: `of_fields` takes any fields, and promises these of fields that no record has.
fn none() -> Solution
    ensures { sum_ranges_in result ≡ no_sum_ranges }
{
    Solution {
        known: false,
        whole: true,
        least: one_end::no_sums(),
        most: one_end::no_sums(),
    }
}

// The greatest hydrogen, by its floor.
// Two ways and no sum with a flag: so the charge stays a charge.
fn highest(floor: u64, whole: bool) -> Charge
    requires { floor + 1 < 2 ^ 64 }
    ensures { result.0 ≡ floor + gap whole }
{
    if whole {
        return Charge(floor);
    }
    Charge(floor + 1)
}
