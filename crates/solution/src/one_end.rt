// The sums of a record at one end: every amount at its greatest, or every one at its least.
ghost use Rattle.std.specs.Prelude.{◌≡◌, ◌+◌, ◌*◌, ◌^◌, ◌≤◌, ◌<◌};
ghost use Rattle.record.specs.Record.{most_conductivity};
ghost use Rattle.record.specs.Tested.{fields_in};
ghost use Rattle.solution.specs.Ions.{hydrogen_conductance, hydrogen_charge_number, alkalinity_conductance, alkalinity_charge_number, alkalinity_charge};
ghost use Rattle.solution.specs.Solutions.{measured_of, sums_in};
ghost use Rattle.solution.specs.ByValue.{sums_held, no_sums};
ghost use Rattle.solution.specs.Ends.{is_greatest};
ghost use Rattle.solution.specs.Steps.{Ranged};

use crate::adding::Summed;
use crate::amounts::{Amounts, End};
use crate::{Charge, Conductivity, Nitrogen, SodiumChloride, Sums, ions};
use activity::IonicStrength;
use reading::Mass;
use record::TestedRecord;

// u in a tenth of a µeq/L, and 10^-13 µS/cm in a tenth of a µS/cm.
const ALKALINITY_UNIT: u64 = 100000000;

const MEASURED_UNIT: u64 = 1000000000000;

// Of fields within their ranges, with that hydrogen.
pub fn sums(own: TestedRecord, end: End, hydrogen: Charge) -> Sums
    requires { Ranged (fields_in own) hydrogen.0 }
    ensures { sums_in result ≡ sums_held (fields_in own) (is_greatest end) hydrogen.0 }
{
    let analytes = own.analytes;
    let amounts = Amounts { analytes, end };
    let ratio = amounts.sodium_chloride();
    let nitrogen = amounts.nitrogen();
    let measured = measured_conductivity(own.conductivity);
    let alkalinity = alkalinity_charge(own.alkalinity);
    let eight = amounts.eight();
    let cations = hydrogen.plus(eight.cations);
    let anions = alkalinity.plus(eight.anions);
    let calculated = calculated(hydrogen, alkalinity, eight.conductivity);
    let of_ions = amounts.strength();
    let strength = strength_of(hydrogen, alkalinity, of_ions);
    Sums {
        cations,
        anions,
        calculated,
        measured,
        strength,
        ratio,
        nitrogen,
    }
}

// No sums: each is 0, as `of_fields` promises of fields that no record has.
pub fn no_sums() -> Sums
    ensures { sums_in result ≡ no_sums }
{
    Sums {
        cations: Charge(0),
        anions: Charge(0),
        calculated: Conductivity(0),
        measured: Conductivity(0),
        strength: IonicStrength(0),
        ratio: SodiumChloride {
            sodium: Charge(0),
            chloride: Charge(0),
        },
        nitrogen: Nitrogen {
            mineral: Mass(0),
            total: Mass(0),
        },
    }
}

// Each of its own unit, which a generic function would take from it.
fn alkalinity_charge(tenths: u32) -> Charge
    ensures { result.0 ≡ alkalinity_charge tenths }
{
    Charge(u64::from(tenths) * ALKALINITY_UNIT)
}

fn measured_conductivity(tenths: u32) -> Conductivity
    requires { tenths ≤ most_conductivity }
    ensures { result.0 ≡ measured_of tenths }
{
    Conductivity(u64::from(tenths) * MEASURED_UNIT)
}

// What hydrogen, alkalinity and the eight ions conduct.
// Like `strength_of` but for the unit, which the types keep apart.
fn calculated(hydrogen: Charge, alkalinity: Charge, eight: Conductivity) -> Conductivity
    requires { hydrogen_conductance * hydrogen.0 + (alkalinity_conductance * alkalinity.0 + eight.0) < 2 ^ 64 }
    ensures { result.0 ≡ hydrogen_conductance * hydrogen.0 + (alkalinity_conductance * alkalinity.0 + eight.0) }
{
    let others = alkalinity
        .conducting(ions::ALKALINITY_CONDUCTANCE)
        .plus(eight);
    hydrogen.conducting(ions::HYDROGEN_CONDUCTANCE).plus(others)
}

// The strength of hydrogen, alkalinity and the eight ions.
fn strength_of(hydrogen: Charge, alkalinity: Charge, eight: IonicStrength) -> IonicStrength
    requires { hydrogen_charge_number * hydrogen.0 + (alkalinity_charge_number * alkalinity.0 + eight.0) < 2 ^ 64 }
    ensures { result.0 ≡ hydrogen_charge_number * hydrogen.0 + (alkalinity_charge_number * alkalinity.0 + eight.0) }
{
    let others = alkalinity
        .strength(ions::ALKALINITY_CHARGE_NUMBER)
        .plus(eight);
    hydrogen.strength(ions::HYDROGEN_CHARGE_NUMBER).plus(others)
}
