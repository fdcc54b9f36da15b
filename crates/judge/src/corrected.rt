// The plain sum times y² (document 02 (v)). 10^9 y² times the sum needs 87 bits, so a billionth of it is taken, rounded to odd:
// itself where it is an even number, else the odd number between its two even neighbours. It is compared only with percentages
// of a measured value, which are even numbers since that value is a multiple of 10^12: below, at or above such a number, it
// stays where the exact product was.
ghost use Rattle.std.specs.Prelude.{◌≡◌, ◌+◌, ◌*◌, ◌≤◌};
ghost use Rattle.activity.specs.Brackets.{unit};
ghost use Rattle.solution.specs.Steps.{most_sums};
ghost use Rattle.judge.specs.Steps.{to_odd};

use activity::UNIT;
use solution::Conductivity;

const TWICE: u64 = 2 * UNIT;

// So many billionths of a conductivity, rounded to odd.
pub fn times(billionths: u64, plain: Conductivity) -> Conductivity
    requires { (billionths ≤ unit + 1) × (plain.0 ≤ most_sums.calculated) }
    ensures { result.0 ≡ to_odd (billionths * plain.0) }
{
    let rest = billionths * (plain.0 % TWICE);
    let even = 2 * (billionths * (plain.0 / TWICE) + rest / TWICE);
    if rest % TWICE == 0 {
        return Conductivity(even);
    }
    Conductivity(even + 1)
}
