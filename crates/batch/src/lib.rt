// Judges a batch (document 01, 'A batch'): control charts, then samples. The answer is the sample count, then a row a sample.
#![tactic(auto)]

pub mod input;
mod rows;
mod samples;
mod testing;
mod walk;
pub mod widths;

ghost use Rattle.std.specs.Prelude.{◌≡◌, length};
ghost use Rattle.refusal.specs.Outcome.{outcome_of};
ghost use Rattle.refusal.specs.Lent.{fitting, length_of, lent_after};
ghost use Rattle.batch.specs.Batches.{test_of};
ghost use Rattle.batch.specs.Rows.{batch_answer};
ghost use Rattle.batch.specs.Layout.{LayoutLaws};
ghost use Rattle.batch.specs.Steps.{samples_answer};

use chart_section::ChartSignal;
use refusal::{Refusal, lent};

pub const MOST_SAMPLES: usize = 400;

// The words of a row: those of its fields.
pub const ROW_WORDS: usize = widths::NUMBER_WORDS
    + widths::VERDICTS * widths::VERDICT_WORDS
    + widths::FLAG_WORDS;

// The words of the longest answer.
pub const MOST_ANSWER: usize = 1 + MOST_SAMPLES * ROW_WORDS;

// Judges a batch, and writes the answer to the start of the lent slice. After a refusal that is as it was. The third promise
// says that what was read of a batch is all that its words say, and that every batch can be read from its words.
pub fn judge_batch(words: &[u32], out: &mut [u32]) -> Result<usize, Refusal>
    ensures answer { outcome_of result ≡ length_of (fitting (length out.old) (batch_answer words.now)) }
    ensures lent { out.new ≡ lent_after (fitting (length out.old) (batch_answer words.now)) out.old }
    ensures layout { LayoutLaws }
{
    let read = chart_section::read(words);
    let size = read.ended?;
    judge_samples(&words[size..], read.charts(), out)
}

// Judges the samples of a batch whose charts have been read. The rows are made in a buffer of its own: the lent slice is
// written only when nothing can be refused any more.
fn judge_samples(words: &[u32], charts: &[ChartSignal], out: &mut [u32]) -> Result<usize, Refusal>
    ensures answer { outcome_of result ≡ length_of (fitting (length out.old) (samples_answer charts.now words.now)) }
    ensures lent { out.new ≡ lent_after (fitting (length out.old) (samples_answer charts.now words.now)) out.old }
{
    let mut buffer = [0u32; MOST_ANSWER];
    let size = samples::make_rows(words, charts, &mut buffer)?;
    lent::lend(&buffer[..size], out)
}

// A batch's own tests alone: nothing is judged.
// Its first two lines are `judge_batch`'s: a call that took the rest as a closure would be longer than both.
pub fn test(words: &[u32]) -> Result<(), Refusal>
    ensures { outcome_of result ≡ test_of words.now }
{
    let read = chart_section::read(words);
    let size = read.ended?;
    testing::test_samples(&words[size..])
}
