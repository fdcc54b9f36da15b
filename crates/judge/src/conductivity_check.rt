// The conductivity that the ions account for, corrected for their strength, against the measured one.
ghost use Rattle.std.specs.Prelude.{◌≡◌, ◌≤◌};
ghost use Rattle.judge.specs.Numbers.{verdict_number};
ghost use Rattle.solution.specs.Held.{sum_ranges_in};
ghost use Rattle.judge.specs.ByValue.{conductivity_in};
ghost use Rattle.judge.specs.Classes.{percent};
ghost use Rattle.judge.specs.Conductivity.{conductivity_limit, conductivity_window};

use crate::classes::{LOW_CONDUCTIVITY, MEDIUM_CONDUCTIVITY, PERCENT};
use crate::ratio::Fraction;
use crate::window::Window;
use crate::{Verdict, corrected};
use solution::Solution;

// The check of a record, by its measured conductivity in tenths of µS/cm and its solution. No record is too strong for a bracket
// of y², so the answer to that is never given.
#[tactic(auto, unfolding(crate::specs::ByValue::conductivity_in))]
pub fn of_record(measured: u32, solution: Solution) -> Verdict
    ensures { verdict_number result ≡ conductivity_in measured (sum_ranges_in solution) }
{
    if !solution.known {
        return Verdict::Missing;
    }
    let Some(correction) = activity::bracket(solution.least.strength, solution.most.strength) else {
        return Verdict::Undecided;
    };
    let smallest = corrected::times(correction.least, solution.least.calculated);
    let largest = corrected::times(correction.most, solution.most.calculated);
    let least = Fraction::of(smallest, solution.most.measured);
    let most = Fraction::of(largest, solution.least.measured);
    window_at(measured).decide(solution.whole, least, most)
}

// The window of calculated to measured conductivity: within 30 percent up to 10.0 µS/cm, 20 up to 20.0, 10 above.
#[tactic(auto, unfolding(crate::specs::Conductivity::conductivity_limit))]
fn window_at(measured: u32) -> Window
    ensures { result ≡ conductivity_window (conductivity_limit measured) }
{
    if measured <= LOW_CONDUCTIVITY {
        within(30)
    } else if measured <= MEDIUM_CONDUCTIVITY {
        within(20)
    } else {
        within(10)
    }
}

// At most so many percent from the measured value.
// Not the balance's: percent of one of the two values, and not of their mean, and three steps in place of two.
fn within(limit: u64) -> Window
    requires { limit ≤ percent }
    ensures { result ≡ conductivity_window limit }
{
    Window {
        low: Fraction::new(PERCENT - limit, PERCENT),
        high: Fraction::new(PERCENT + limit, PERCENT),
    }
}
