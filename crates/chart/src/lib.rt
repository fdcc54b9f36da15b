// Reads a control chart (document 01, 'Charts'): setup values give a mean and deviations, and each later value gets a
// signal word by four rules.
#![tactic(auto)]

mod setup;
mod signal;
pub mod values;

ghost use Rattle.std.specs.Prelude.{◌≡◌, length};
ghost use Rattle.refusal.specs.Outcome.{outcome_of};
ghost use Rattle.refusal.specs.Lent.{fitting, lent_after, length_of};
ghost use Rattle.chart.specs.Setups.{NeverNegative};
ghost use Rattle.chart.specs.Charts.{signals_of, last_signal_of};

use crate::signal::Chart;
use refusal::Refusal;

// Writes one signal word for each later value to the front of a lent slice, whose rest stays. The third promise is that
// n×Q − S², which deviations are made of, is never negative, whatever the values.
pub fn signals(setup: &[u32], later: &[u32], out: &mut [u32]) -> Result<usize, Refusal>
    ensures answer { outcome_of result ≡ length_of (fitting (length out.old) (signals_of setup.now later.now)) }
    ensures lent { out.new ≡ lent_after (fitting (length out.old) (signals_of setup.now later.now)) out.old }
    ensures spread { NeverNegative }
{
    let chart = Chart::of(setup, later)?;
    if out.len() < later.len() {
        return Err(Refusal::OutputLength);
    }
    for (i, word) in out[..later.len()].iter_mut().enumerate() {
        *word = chart.signal_at(i);
    }
    Ok(later.len())
}

// The signal word of the last later value alone, 0 where there is none, or why it is refused.
pub fn last_signal(setup: &[u32], later: &[u32]) -> Result<u32, Refusal>
    ensures { outcome_of result ≡ last_signal_of setup.now later.now }
{
    let chart = Chart::of(setup, later)?;
    let Some(last) = later.len().checked_sub(1) else {
        return Ok(0);
    };
    Ok(chart.signal_at(last))
}
