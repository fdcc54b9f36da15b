// Two batches of one day joined (document 02 (iii)): the charts of the first, then those found only in the second; the samples of
// the first, then those of the second.
#![tactic(auto)]

mod buffer;
mod chart_at;
pub mod files;
mod finding;
mod first;
mod second;
mod writing;

ghost use Rattle.std.specs.Prelude.{◌≡◌, length};
ghost use Rattle.refusal.specs.Outcome.{outcome_of};
ghost use Rattle.refusal.specs.Lent.{fitting, lent_after, length_of};
ghost use Rattle.joining.specs.Joins.{joined_of};
ghost use Rattle.joining.specs.Promise.{JoinsTwo};
ghost use Rattle.joining.specs.Steps.{HasBatch};

use buffer::Buffer;
use refusal::Refusal;

// Joins two batches, and writes the joined batch to the start of the lent slice. After a refusal that is as it was. The third
// promise says, clause by clause, what the joined batch is to the two.
pub fn join(first: &[u32], second: &[u32], out: &mut [u32]) -> Result<usize, Refusal>
    ensures answer { outcome_of result ≡ length_of (fitting (length out.old) (joined_of first.now second.now)) }
    ensures lent { out.new ≡ lent_after (fitting (length out.old) (joined_of first.now second.now)) out.old }
    ensures joined { JoinsTwo }
{
    batch::test(first)?;
    batch::test(second)?;
    join_tested(first, second, out)
}

// Joins two batches that have passed their own tests. The charts are joined in a buffer: the lent slice is written only when
// nothing can be refused any more.
fn join_tested(first: &[u32], second: &[u32], out: &mut [u32]) -> Result<usize, Refusal>
    requires { HasBatch first.now × HasBatch second.now }
    ensures answer { outcome_of result ≡ length_of (fitting (length out.old) (joined_of first.now second.now)) }
    ensures lent { out.new ≡ lent_after (fitting (length out.old) (joined_of first.now second.now)) out.old }
{
    let mut buffer = Buffer::new();
    let before = first::join_first(first, second, &mut buffer)?;
    let after = second::add_second(first, second, &mut buffer);
    writing::write(&buffer, before, after, out)
}
