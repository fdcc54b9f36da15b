// An answer made apart, into a slice that a caller lends: the test for room is the last that a call makes.
ghost use Rattle.std.specs.Prelude.{◌≡◌, length};
ghost use Rattle.refusal.specs.Outcome.{outcome_of};
ghost use Rattle.refusal.specs.Outcome.Outcome.{given};
ghost use Rattle.refusal.specs.Lent.{fitting, length_of, lent_after};

use crate::Refusal;

// Copies a made answer to the start of a lent slice, where that is long enough.
// Each call that writes to a lent slice promises this pair, to the letter: no value goes out that could carry it.
pub fn lend<T: Copy>(made: &[T], out: &mut [T]) -> Result<usize, Refusal>
    ensures answer { outcome_of result ≡ length_of (fitting (length out.old) (given made.now)) }
    ensures lent { out.new ≡ lent_after (fitting (length out.old) (given made.now)) out.old }
{
    let size = made.len();
    if out.len() < size {
        return Err(Refusal::OutputLength);
    }
    // One by one: an answer of a few words goes straight to where it is lent, and is not put together first.
    for (i, place) in out[..size].iter_mut().enumerate() {
        *place = made[i];
    }
    Ok(size)
}
