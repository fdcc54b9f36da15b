// Total nitrogen against the nitrogen of nitrate and ammonium.
ghost use Rattle.std.specs.Prelude.{◌≡◌};
ghost use Rattle.record.specs.Record.{ammonium, nitrate, total_nitrogen};
ghost use Rattle.record.specs.Tested.{analyte_at};
ghost use Rattle.judge.specs.Numbers.{verdict_number};
ghost use Rattle.solution.specs.Held.{sum_ranges_in};
ghost use Rattle.judge.specs.ByValue.{nitrogen_in};

use crate::Verdict;
use crate::ratio::Fraction;
use crate::window::Window;
use reading::{Analyte, Reading};
use solution::Solution;

// At most all of it.
const WINDOW: Window = Window {
    low: Fraction {
        numerator: 0,
        denominator: 1,
    },
    high: Fraction {
        numerator: 1,
        denominator: 1,
    },
};

// The check of a record, by its readings and its solution.
#[tactic(auto, unfolding(crate::specs::ByValue::nitrogen_in))]
pub fn of_record(analytes: [Analyte; record::READINGS], solution: Solution) -> Verdict
    ensures { verdict_number result ≡ nitrogen_in (analyte_at analytes total_nitrogen) (analyte_at analytes nitrate) (analyte_at analytes ammonium) (sum_ranges_in solution) }
{
    if let Reading::Missing = analytes[record::TOTAL_NITROGEN].reading {
        return Verdict::NotApplicable;
    }
    if let Reading::Missing = analytes[record::NITRATE].reading {
        return Verdict::Missing;
    }
    if let Reading::Missing = analytes[record::AMMONIUM].reading {
        return Verdict::Missing;
    }
    let least = Fraction::of(
        solution.least.nitrogen.mineral,
        solution.most.nitrogen.total,
    );
    let most = Fraction::of(
        solution.most.nitrogen.mineral,
        solution.least.nitrogen.total,
    );
    WINDOW.decide(true, least, most)
}
