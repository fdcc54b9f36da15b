// What a water holds in solution by its analysis (document 01, 'Charge and conductance', and 02 (i), (v) and (vi)): the charges,
// the conductivities and the ionic strength of the table's ten rows, added up to the sums that the checks compare.
#![tactic(auto)]

mod adding;
mod amounts;
mod both_ends;
mod ions;
mod one_end;
mod ranges;

ghost use Rattle.solution.specs.Solutions.{ends_in};
ghost use Rattle.solution.specs.Steps.{Bounded};

use activity::IonicStrength;
pub use both_ends::of_fields;
use reading::Mass;

// A charge in u, which is 10^-9 µeq/L, held apart from mass and conductivity by its type.
#[derive(Clone, Copy, Debug, PartialEq, Eq)]
pub struct Charge(pub u64);

// A conductivity in 10^-13 µS/cm, held apart from mass and charge by its type.
#[derive(Clone, Copy, Debug, PartialEq, Eq)]
pub struct Conductivity(pub u64);

// The two charges of the sodium/chloride ratio.
#[derive(Clone, Copy, Debug, PartialEq, Eq)]
pub struct SodiumChloride {
    pub sodium: Charge,
    pub chloride: Charge,
}

// The two masses of the nitrogen check: of nitrate with ammonium, and of total nitrogen.
#[derive(Clone, Copy, Debug, PartialEq, Eq)]
pub struct Nitrogen {
    pub mineral: Mass,
    pub total: Mass,
}

// Every sum that a check compares with another, and the ionic strength.
#[derive(Clone, Copy, Debug, PartialEq, Eq)]
pub struct Sums {
    // Cat, An, the plain sum of conductivities and CM.
    pub cations: Charge,
    pub anions: Charge,
    pub calculated: Conductivity,
    pub measured: Conductivity,
    pub strength: IonicStrength,
    pub ratio: SodiumChloride,
    pub nitrogen: Nitrogen,
}

// What a record holds in solution: of each sum its least and its greatest value.
#[derive(Clone, Copy, Debug, PartialEq, Eq)]
pub struct Solution {
    // Whether none of the eight ions is missing. The sums are told, and promised, also where one is.
    pub known: bool,
    // Whether hydrogen is its floor: at a whole pH. Else it is strictly between its floor and the next whole number of u.
    // A flag, since both ends have their sums either way: it says only whether they are reached.
    pub whole: bool,
    pub least: Sums,
    pub most: Sums,
    // No sum is above its greatest value, nor that above what any record has; and a measured conductivity is whole tenths of a
    // µS/cm.
    pub ghost bounded: { Bounded (ends_in known whole least most) },
}
