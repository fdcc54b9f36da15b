// The values of a control chart (document 01, 'Charts', and 02 (i)): how many it may have and how great they may be, refusals
// 9 and 10.
ghost use Rattle.std.specs.Prelude.{◌≡◌};
ghost use Rattle.refusal.specs.Outcome.{outcome_of};
ghost use Rattle.chart.specs.Values.{all_values, counts_fit, test_of};

use refusal::Refusal;

const LEAST_SETUP: usize = 10;

pub const MOST_SETUP: usize = 64;

pub const MOST_LATER: usize = 64;

// In tenths of a µg/L.
const GREATEST_VALUE: u32 = 2000000;

// The tests of a chart's setup values and later ones: their counts, 9, then the values, 10. The first that fails refuses them.
pub fn test(setup: &[u32], later: &[u32]) -> Result<(), Refusal>
    ensures { outcome_of result ≡ test_of setup.now later.now }
{
    if !counts_fit(setup.len(), later.len()) {
        return Err(Refusal::Count);
    }
    if !(are_values(setup) && are_values(later)) {
        return Err(Refusal::Chart);
    }
    Ok(())
}

// Whether a chart may have so many setup values and so many later ones.
pub fn counts_fit(setup: usize, later: usize) -> bool
    ensures { result ≡ counts_fit setup later }
{
    (LEAST_SETUP..=MOST_SETUP).contains(&setup) && later <= MOST_LATER
}

// The loop has one way out, so that several words are tested at once: an `all`, which stops at the first that fails, takes longer.
fn are_values(words: &[u32]) -> bool
    ensures { result ≡ all_values words.now }
{
    let mut all = true;
    for &word in words {
        all &= word <= GREATEST_VALUE;
    }
    all
}
