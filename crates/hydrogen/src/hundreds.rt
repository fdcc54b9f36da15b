// The floor of true hydrogen at every p, from those that the table keeps.
ghost use Rattle.std.specs.Prelude.{◌≡◌, ◌≤◌};
ghost use Rattle.hydrogen.specs.Floors.{least_ph, greatest_ph, floor_at};
ghost use Rattle.hydrogen.specs.SmallerTable.{DividesByTen};

use crate::{LEAST_PH, PER_PH, table};

// The powers of ten by which an entry is divided, read from a list: `pow` finds the same in a loop, which takes longer.
const TENS: [u64; 9] = [
    1, 10, 100, 1000, 10000, 100000, 1000000, 10000000, 100000000,
];

// The floor at p. Each hundred further divides by ten once more, rounded down: k such divisions are one by 10^k. The
// second promise is the law behind it.
pub fn floor(p: u32) -> u64
    requires { (least_ph ≤ p) × (p ≤ greatest_ph) }
    ensures answer { result ≡ floor_at p }
    ensures law { DividesByTen }
{
    let beyond = p - LEAST_PH;
    let first = table::entry(beyond % PER_PH);
    first / TENS[(beyond / PER_PH) as usize]
}
