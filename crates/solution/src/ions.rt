// The table of the ions, and the sums of a record's eight. Only the table's columns turn a mass into a charge and a charge into
// a conductivity or a strength, and only like is added to like.
ghost use Rattle.std.specs.Prelude.{◌≡◌, ◌*◌, ◌^◌, ◌≤◌, ◌<◌};
ghost use Rattle.reading.specs.Amounts.{most_mass};
ghost use Rattle.record.specs.Record.{ions, readings, all_below};
ghost use Rattle.solution.specs.Ions.{charge_unit, strength_added, sum};
ghost use Rattle.solution.specs.ByValue.{there_at, amount_at};
ghost use Rattle.solution.specs.Ends.{is_greatest};
ghost use Rattle.solution.specs.Steps.{RowOf, Adds, IonSums, RatioOf};

use crate::adding::Summed;
use crate::amounts::Amounts;
use crate::{Charge, Conductivity, SodiumChloride};
use activity::IonicStrength;
use reading::{Analyte, Mass};
use record::IONS;

// A row of the table.
#[derive(Clone, Copy)]
// Nothing compares or prints these.
struct Row {
    // Charge in 10^3 u for each tenth of a µg/L, of a cation and of an anion.
    cation: u64,
    anion: u64,
    // 10^-13 µS/cm for each u.
    conductance: u64,
    // The charge number.
    number: u64,
}

// The ions' rows, in the order of a record's readings. A static: a const of structs is put together anew on the stack wherever it
// is read, by which a record judged took twice as long.
static TABLE: [Row; IONS] = [
    Row {
        cation: 7139,
        anion: 0,
        conductance: 735,
        number: 1, // NH4
    },
    Row {
        cation: 4990,
        anion: 0,
        conductance: 595,
        number: 2, // Ca
    },
    Row {
        cation: 8229,
        anion: 0,
        conductance: 531,
        number: 2, // Mg
    },
    Row {
        cation: 4350,
        anion: 0,
        conductance: 501,
        number: 1, // Na
    },
    Row {
        cation: 2558,
        anion: 0,
        conductance: 735,
        number: 1, // K
    },
    Row {
        cation: 0,
        anion: 6237,
        conductance: 800,
        number: 2, // SO4
    },
    Row {
        cation: 0,
        anion: 7139,
        conductance: 714,
        number: 1, // NO3
    },
    Row {
        cation: 0,
        anion: 2821,
        conductance: 764,
        number: 1, // Cl
    },
];

pub const HYDROGEN_CONDUCTANCE: u64 = 3500;

pub const ALKALINITY_CONDUCTANCE: u64 = 445;

pub const HYDROGEN_CHARGE_NUMBER: u64 = 1;

pub const ALKALINITY_CHARGE_NUMBER: u64 = 1;
// u in the unit of the charge columns.
const CHARGE_UNIT: u64 = 1000;

// What an amount of an ion adds to the sums: to one side of the balance, 0 to the other, to the conductivity and to the strength.
#[derive(Clone, Copy)]
pub struct Ion {
    pub cation: Charge,
    pub anion: Charge,
    pub conductivity: Conductivity,
    pub strength: IonicStrength,
}

// The sums of the eight ions.
#[derive(Clone, Copy)]
pub struct Eight {
    pub cations: Charge,
    pub anions: Charge,
    pub conductivity: Conductivity,
}

impl Charge {
    // What it conducts, by a row's conductance.
    // Two functions and no generic one: a number times a charge is of another unit each time, and the types keep the units apart.
    pub(crate) fn conducting(self, conductance: u64) -> Conductivity
        requires { conductance * self.0 < 2 ^ 64 }
        ensures { result.0 ≡ conductance * self.0 }
    {
        Conductivity(conductance * self.0)
    }

    // Its strength, by a row's charge number. Ionic strength is half the sum of such products (document 02 (v)), so that a charge
    // in u times a number is a strength in halves of 10^-15 mol/L.
    pub(crate) fn strength(self, number: u64) -> IonicStrength
        requires { number * self.0 < 2 ^ 64 }
        ensures { result.0 ≡ number * self.0 }
    {
        IonicStrength(number * self.0)
    }
}

// The charge of an amount, by the entry of a column.
fn charge(factor: u64, m: Mass) -> Charge
    requires { charge_unit * (factor * m.0) < 2 ^ 64 }
    ensures { result.0 ≡ charge_unit * (factor * m.0) }
{
    Charge(CHARGE_UNIT * (factor * m.0))
}

// The row of an ion.
fn row_at(ion: usize) -> Row
    requires { ion < ions }
    ensures { RowOf ion result }
{
    TABLE[ion]
}

// By its row.
fn of_ion(ion: usize, m: Mass) -> Ion
    requires { (ion < ions) × (m.0 ≤ most_mass) }
    ensures { Adds ion m.0 result }
{
    let row = row_at(ion);
    let cation = charge(row.cation, m);
    let anion = charge(row.anion, m);
    let charge = cation.plus(anion);
    let conductivity = charge.conducting(row.conductance);
    let strength = charge.strength(row.number);
    Ion {
        cation,
        anion,
        conductivity,
        strength,
    }
}

// Whether none of the eight is missing. The loop has no way out.
pub fn are_present(analytes: &[Analyte; record::READINGS]) -> bool
    ensures { result ≡ all_below (there_at analytes.now) ions }
{
    let mut known = true;
    for i in 0..IONS {
        known &= analytes[i].is_present();
    }
    known
}

impl Amounts {
    // The sums of the eight. The loop has no way out: a missing ion has no amount, and adds nothing.
    pub fn eight(&self) -> Eight
        ensures { IonSums (is_greatest self.now.end) self.now.analytes result }
    {
        let mut cations = Charge(0);
        let mut anions = Charge(0);
        let mut conductivity = Conductivity(0);
        for i in 0..IONS {
            let ion = of_ion(i, self.at(i));
            cations = cations.plus(ion.cation);
            anions = anions.plus(ion.anion);
            conductivity = conductivity.plus(ion.conductivity);
        }
        Eight {
            cations,
            anions,
            conductivity,
        }
    }

    // The strength of the eight. A loop of its own: with a fourth sum the compiler no longer unrolled the one above.
    pub fn strength(&self) -> IonicStrength
        ensures { result.0 ≡ sum (λ i. strength_added i * amount_at (is_greatest self.now.end) self.now.analytes i) readings }
    {
        let mut strength = IonicStrength(0);
        for i in 0..IONS {
            let ion = of_ion(i, self.at(i));
            strength = strength.plus(ion.strength);
        }
        strength
    }

    // The two charges of the sodium/chloride ratio.
    pub fn sodium_chloride(&self) -> SodiumChloride
        ensures { RatioOf (is_greatest self.now.end) self.now.analytes result }
    {
        let sodium = of_ion(record::SODIUM, self.at(record::SODIUM));
        let chloride = of_ion(record::CHLORIDE, self.at(record::CHLORIDE));
        SodiumChloride {
            sodium: sodium.cation,
            chloride: chloride.anion,
        }
    }
}
