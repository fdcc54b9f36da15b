// The joined batch written to the lent slice.
ghost use Rattle.std.specs.Prelude.{◌≡◌, length};
ghost use Rattle.refusal.specs.Outcome.{outcome_of};
ghost use Rattle.refusal.specs.Lent.{fitting, lent_after, length_of};
ghost use Rattle.joining.specs.Steps.{SamplesThere, finished, held_words};

use crate::buffer::Buffer;
use batch::MOST_SAMPLES;
use refusal::Refusal;

// Writes the joined batch: the charts that the buffer holds, and the samples' sections from before and after the tray change as
// one. Refused 15 by the samples, then 13.
pub fn write(
    buffer: &Buffer,
    before: &[u32],
    after: &[u32],
    out: &mut [u32],
) -> Result<usize, Refusal>
    requires { SamplesThere before.now × SamplesThere after.now }
    ensures answer { outcome_of result ≡ length_of (fitting (length out.old) (finished buffer.now.count (held_words buffer.now) before.now after.now)) }
    ensures lent { out.new ≡ lent_after (fitting (length out.old) (finished buffer.now.count (held_words buffer.now) before.now after.now)) out.old }
{
    let samples = before[0] + after[0];
    if samples > MOST_SAMPLES as u32 {
        return Err(Refusal::JoinedCount);
    }
    let charts = buffer.charts();
    let middle = 1 + charts.len();
    let end = middle + before.len();
    let size = end + after.len() - 1;
    if out.len() < size {
        return Err(Refusal::OutputLength);
    }
    words::place(&[buffer.count as u32], out, 0);
    words::place(charts, out, 1);
    words::place(&[samples], out, middle);
    words::place(&before[1..], out, middle + 1);
    words::place(&after[1..], out, end);
    Ok(size)
}
