// The exponent e = s/(1+s) - 0.3 s² at a root s = k × 10^-6, in thousandths. Over 10^13 (10^6 + k) e is
// 10^13 k - 3 k² (10^6 + k): s/(1+s) is k / (10^6 + k), and 0.3 s² is 3 k² / 10^13.
ghost use Rattle.std.specs.Prelude.{◌≡◌, ◌≤◌, ◌<◌};
ghost use Rattle.activity.specs.Exponent.{gain, top, million, lower_exponent, upper_exponent};
ghost use Rattle.activity.specs.Steps.{table_length};

use crate::root::Root;

// 1 in multiples of 10^-6.
const MILLION: u64 = 1000000;

// 1 in tenths of 10^-12, the square of a multiple.
const TENTHS: u64 = 10 * MILLION * MILLION;

// A thousandth in them.
const THOUSANDTH: u64 = TENTHS / 1000;

// An exponent in thousandths, each below the table's length.
#[derive(Clone, Copy)]
pub struct Exponent {
    pub thousandths: u64,
    ghost in_table: { thousandths < table_length },
}

impl Exponent {
    // The greatest thousandth not above e.
    pub fn lower(root: Root) -> Exponent
        ensures { result.thousandths ≡ lower_exponent root.multiples }
    {
        Exponent {
            thousandths: top(root) / (THOUSANDTH * (root.multiples + MILLION)),
        }
    }

    // The least thousandth not below e.
    pub fn upper(root: Root) -> Exponent
        ensures { result.thousandths ≡ upper_exponent root.multiples }
    {
        Exponent {
            thousandths: top(root).div_ceil(THOUSANDTH * (root.multiples + MILLION)),
        }
    }
}

// What e is over 10^13 (10^6 + k).
fn top(root: Root) -> u64
    ensures answer { result ≡ top root.multiples million }
    ensures small { result ≤ gain root.multiples million }
{
    let k = root.multiples;
    TENTHS * k - 3 * (k * k * (k + MILLION))
}
