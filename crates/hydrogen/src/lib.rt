// True hydrogen (document 01, 'Hydrogen'): the floor of H at a pH in hundredths, called p.
#![tactic(auto)]

mod hundreds;
mod table;

ghost use Rattle.std.specs.Prelude.{◌≡◌, ◌≤◌};
ghost use Rattle.refusal.specs.Outcome.{outcome_of};
ghost use Rattle.hydrogen.specs.Floors.{least_ph, greatest_ph, is_whole, floor_of};
ghost use Rattle.hydrogen.specs.TrueHydrogen.{HydrogenAt};

use refusal::Refusal;

// The greatest floor.
pub use table::MOST_FLOOR;

// The least p.
const LEAST_PH: u32 = 200;

// The greatest p.
const GREATEST_PH: u32 = 1000;

// A unit of pH in hundredths.
const PER_PH: u32 = 100;

// The floor of true hydrogen at p in u, which is 10^-9 µeq/L, or why there is none. The second promise says where H
// itself stands to it.
pub fn floor_at(p: u32) -> Result<u64, Refusal>
    ensures answer { outcome_of result ≡ floor_of p }
    ensures truth { least_ph ≤ p → p ≤ greatest_ph → HydrogenAt p }
{
    // Two comparisons and no range's `contains`, which leaves harder goals to prove.
    if p < LEAST_PH || p > GREATEST_PH {
        return Err(Refusal::Ph);
    }
    Ok(hundreds::floor(p))
}

// Whether p is a whole pH, where true hydrogen is its floor.
pub fn is_whole(p: u32) -> bool
    ensures { result ≡ is_whole p }
{
    p.is_multiple_of(PER_PH)
}
