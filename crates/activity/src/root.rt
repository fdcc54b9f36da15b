// The root s of an ionic strength, in multiples of 10^-6.
ghost use Rattle.std.specs.Prelude.{◌≡◌, ◌+◌, ◌≤◌, ltb};
ghost use Rattle.activity.specs.Strength.{square, strongest, lower_root, upper_root};
ghost use Rattle.activity.specs.Steps.{greatest_root};

use crate::newton;

// The square of one multiple, 10^-12 mol/L, in halves of 10^-15 mol/L.
const SQUARE: u64 = 2000;

// A root in multiples, none above that of the strongest water.
#[derive(Clone, Copy)]
// Nothing compares or prints it.
pub struct Root {
    pub multiples: u64,
    ghost small: { multiples ≤ greatest_root },
}

impl Root {
    // The greatest multiple whose square is at most the strength: 2,000 k² is at most that exactly where k² is at most a
    // 2,000th of it, rounded down.
    // A clause and no type: it is asked of a strength here and in `upper` alone.
    pub fn lower(strength: u64) -> Root
        requires { strength ≤ strongest }
        ensures { result.multiples ≡ lower_root strength }
    {
        Root {
            multiples: newton::whole_root(strength / SQUARE),
        }
    }

    // The least multiple whose square is at least the strength. `near` is any root: that of the least strength is mostly
    // the one before it where no reading is below its limit, since hydrogen leaves the two strengths at most 1 apart. Then
    // no root need be found again.
    pub fn upper(strength: u64, near: Root) -> Root
        requires { strength ≤ strongest }
        ensures { result.multiples ≡ upper_root strength }
    {
        let next = near.multiples + 1;
        if is_below(near.multiples, strength) && !is_below(next, strength) {
            return Root { multiples: next };
        }
        let root = Root::lower(strength);
        if is_below(root.multiples, strength) {
            return Root {
                multiples: root.multiples + 1,
            };
        }
        root
    }
}

// Whether the square of k multiples is below the strength.
fn is_below(k: u64, strength: u64) -> bool
    requires { k ≤ greatest_root + 1 }
    ensures { result ≡ ltb (square k) strength }
{
    SQUARE * (k * k) < strength
}
