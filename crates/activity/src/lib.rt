// The correction of calculated conductivity at higher ionic strength (document 02 (v)): from the least and the greatest
// ionic strength of a water to a bracket of 10^9 y², y being the activity of a monovalent ion by the Davies equation.
#![tactic(auto)]

mod exponent;
mod newton;
mod root;
mod table;

ghost use Rattle.std.specs.Prelude.{◌≡◌};
ghost use Rattle.activity.specs.Brackets.{correction_of};
ghost use Rattle.activity.specs.Truth.{Bracketed};

use exponent::Exponent;
use root::Root;

// An ionic strength in halves of 10^-15 mol/L: the sum over the ten rows of charge in u times the ion's charge number.
// u is 10^-15 equivalents per litre, and ionic strength is half of that sum.
#[derive(Clone, Copy, Debug, PartialEq, Eq)]
pub struct IonicStrength(pub u64);

// 10^9: the bracket's ends are whole numbers of billionths.
pub const UNIT: u64 = 1000000000;

// The greatest strength that a bracket is given for, 0.08 mol/L.
const STRONGEST: u64 = 160000000000000;

// A bracket of y²: it is from least to most billionths, both included.
#[derive(Clone, Copy, Debug, PartialEq, Eq)]
pub struct Correction {
    pub least: u64,
    pub most: u64,
}

// The bracket of y² over all strengths from the least to the greatest; none where one is above every record's. The second
// promise says what is true of it.
pub fn bracket(least: IonicStrength, greatest: IonicStrength) -> Option<Correction>
    ensures answer { result ≡ correction_of least.0 greatest.0 }
    ensures truth { Bracketed least.0 greatest.0 }
{
    if least.0 > STRONGEST || greatest.0 > STRONGEST {
        return None;
    }
    let near = Root::lower(least.0);
    let lower = Exponent::lower(near);
    let upper = Exponent::upper(Root::upper(greatest.0, near));
    let most = table::floor(lower) + 1;
    Some(Correction {
        least: table::floor(upper),
        most,
    })
}
