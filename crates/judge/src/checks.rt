// The four checks of a record. A check that asks whether a reading is there matches on the reading's enum itself: the form that
// document 01 names, 'conversion and verdicts match on it'.
ghost use Rattle.std.specs.Prelude.{◌≡◌};
ghost use Rattle.record.specs.Tested.{fields_in};
ghost use Rattle.solution.specs.ByValue.{sum_ranges_by};
ghost use Rattle.judge.specs.Judgements.{numbers_of};
ghost use Rattle.judge.specs.ByValue.{verdicts_in};

use crate::{Verdicts, balance_check, conductivity_check, nitrogen_check, ratio_check};
use record::TestedRecord;

// By the fields of a record and the floor of hydrogen.
pub fn verdicts(own: TestedRecord, floor: u64) -> Verdicts
    ensures { numbers_of result ≡ verdicts_in (fields_in own) (sum_ranges_by (fields_in own) floor) }
{
    let solution = solution::of_fields(own, floor);
    // Each check takes what its definition takes, and no more.
    let balance = balance_check::of_record(own.kind, own.analytes, own.conductivity, solution);
    let conductivity = conductivity_check::of_record(own.conductivity, solution);
    let ratio = ratio_check::of_record(own.kind, own.analytes, solution);
    let nitrogen = nitrogen_check::of_record(own.analytes, solution);
    Verdicts {
        balance,
        conductivity,
        ratio,
        nitrogen,
    }
}
