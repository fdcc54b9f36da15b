// The samples of a batch, judged.
ghost use Rattle.std.specs.Prelude.{◌≡◌, length};
ghost use Rattle.batch.specs.Rows.{most_answer};
ghost use Rattle.batch.specs.Steps.{samples_answer, MadeSaid};

use crate::walk::Samples;
use crate::{ROW_WORDS, rows};
use chart_section::ChartSignal;
use refusal::Refusal;

// Makes the answer to the samples' section in a buffer: their count, then a row for each. The words are all that is left of
// the batch. A record is tested once: its verdicts and its row are made from the fields that the tests hand on. What a refusal
// leaves in the buffer is of no use.
pub fn make_rows(
    words: &[u32],
    charts: &[ChartSignal],
    buffer: &mut [u32],
) -> Result<usize, Refusal>
    requires { length buffer.old ≡ most_answer }
    ensures { MadeSaid result (samples_answer charts.now words.now) buffer.new }
{
    let mut samples = Samples::of(words)?;
    buffer[0] = samples.left as u32;
    let mut size: usize = 1;
    while let Some(record) = samples.next()? {
        let own = record::test(record);
        let verdicts = judge::judge_tested(own)?;
        let row = rows::row(own, verdicts, charts);
        words::place(&row, buffer, size);
        size += ROW_WORDS;
    }
    Ok(size)
}
