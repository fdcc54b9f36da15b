// The sodium/chloride ratio.
ghost use Rattle.std.specs.Prelude.{◌≡◌};
ghost use Rattle.record.specs.Record.{sodium, chloride};
ghost use Rattle.record.specs.Tested.{analyte_at};
ghost use Rattle.judge.specs.Numbers.{verdict_number};
ghost use Rattle.solution.specs.Held.{sum_ranges_in};
ghost use Rattle.judge.specs.ByValue.{ratio_in};

use crate::Verdict;
use crate::classes::STEMFLOW;
use crate::ratio::Fraction;
use crate::window::Window;
use reading::{Analyte, Reading};
use solution::Solution;

// From a half to one and a half.
const WINDOW: Window = Window {
    low: Fraction {
        numerator: 1,
        denominator: 2,
    },
    high: Fraction {
        numerator: 3,
        denominator: 2,
    },
};

// The check of a record, by its kind, its readings and its solution. A chloride that may be 0 leaves no ratio, whatever
// sodium is.
#[tactic(auto, unfolding(crate::specs::ByValue::ratio_in))]
pub fn of_record(kind: u32, analytes: [Analyte; record::READINGS], solution: Solution) -> Verdict
    ensures { verdict_number result ≡ ratio_in kind (analyte_at analytes sodium) (analyte_at analytes chloride) (sum_ranges_in solution) }
{
    if kind > STEMFLOW {
        return Verdict::NotApplicable;
    }
    let chloride = analytes[record::CHLORIDE];
    if let Reading::Missing = chloride.reading {
        return Verdict::Missing;
    }
    if chloride.range().least.0 == 0 {
        return Verdict::NotApplicable;
    }
    if let Reading::Missing = analytes[record::SODIUM].reading {
        return Verdict::Missing;
    }
    let least = Fraction::of(solution.least.ratio.sodium, solution.most.ratio.chloride);
    let most = Fraction::of(solution.most.ratio.sodium, solution.least.ratio.chloride);
    WINDOW.decide(true, least, most)
}
