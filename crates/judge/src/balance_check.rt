// The ion balance.
ghost use Rattle.std.specs.Prelude.{◌≡◌, ◌≤◌};
ghost use Rattle.reading.specs.Analytes.{present};
ghost use Rattle.record.specs.Record.{organic_carbon};
ghost use Rattle.record.specs.Tested.{analyte_at};
ghost use Rattle.judge.specs.Numbers.{verdict_number};
ghost use Rattle.solution.specs.Held.{sum_ranges_in};
ghost use Rattle.judge.specs.ByValue.{balance_in};
ghost use Rattle.judge.specs.Classes.{percent_of_mean};
ghost use Rattle.judge.specs.IonBalance.{balance_applies, balance_limit, balance_window};

use crate::Verdict;
use crate::classes::{BULK, MEDIUM_CONDUCTIVITY, PERCENT_OF_MEAN, RUNOFF, WET_ONLY};
use crate::ratio::Fraction;
use crate::window::Window;
use reading::{Analyte, Reading};
use solution::Solution;

// Dissolved organic carbon of 5 mg/L, as an amount.
const CARBON_LINE: u64 = 5 * reading::PER_MILLIGRAM;

// The check of a record, by its kind, its readings, its measured conductivity in tenths of µS/cm, and its solution. 'Not
// applicable' goes before 'missing'.
#[tactic(auto, unfolding(crate::specs::ByValue::balance_in))]
pub fn of_record(
    kind: u32,
    analytes: [Analyte; record::READINGS],
    measured: u32,
    solution: Solution,
) -> Verdict
    ensures { verdict_number result ≡ balance_in kind (analyte_at analytes organic_carbon) measured (sum_ranges_in solution) }
{
    let carbon = analytes[record::ORGANIC_CARBON];
    if !applies(kind, carbon) {
        return Verdict::NotApplicable;
    }
    if !solution.known {
        return Verdict::Missing;
    }
    let least = Fraction::of(solution.least.cations, solution.most.anions);
    let most = Fraction::of(solution.most.cations, solution.least.anions);
    window_at(measured).decide(solution.whole, least, most)
}

// Open field samples, and runoff with little dissolved organic carbon, whose charge is not known.
#[tactic(auto, unfolding(crate::specs::IonBalance::balance_applies))]
fn applies(kind: u32, carbon: Analyte) -> bool
    ensures { result ≡ balance_applies kind (present carbon.reading) carbon.mass.0 }
{
    match kind {
        WET_ONLY | BULK => true,
        RUNOFF => !matches!(carbon.reading, Reading::Missing) && carbon.mass.0 < CARBON_LINE,
        _ => false,
    }
}

// The window of cations to anions, by the measured conductivity: a limit of 20 percent up to 20.0 µS/cm, of 10 above.
#[tactic(auto, unfolding(crate::specs::IonBalance::balance_limit))]
fn window_at(measured: u32) -> Window
    ensures { result ≡ balance_window (balance_limit measured) }
{
    if measured <= MEDIUM_CONDUCTIVITY {
        within(20)
    } else {
        within(10)
    }
}

// A difference of two sums of at most so many percent of their mean.
fn within(limit: u64) -> Window
    requires { limit ≤ percent_of_mean }
    ensures { result ≡ balance_window limit }
{
    let less = PERCENT_OF_MEAN - limit;
    let more = PERCENT_OF_MEAN + limit;
    Window {
        low: Fraction::new(less, more),
        high: Fraction::new(more, less),
    }
}
