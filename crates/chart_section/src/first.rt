// The chart at the front of the words.
ghost use Rattle.std.specs.Prelude.{◌≡◌, true, ◌≤◌, length, drop};
ghost use Rattle.chart.specs.Values.{counts_fit};
ghost use Rattle.chart_section.specs.ChartSection.{head_words, values_of, chart_of};
ghost use Rattle.chart_section.specs.Columns.{elements_in};
ghost use Rattle.chart_section.specs.Steps.{ChartSaid};

use crate::{ChartSignal, ELEMENT, HEAD_WORDS, LATER_COUNT, SETUP_COUNT, elements};
use refusal::Refusal;

// What reading a chart finds: its element and the signal at its last later value, and the words after it.
#[derive(Clone, Copy, Debug, PartialEq, Eq)]
pub struct ChartRead<'a> {
    pub chart: ChartSignal,
    pub rest: &'a [u32],
}

// Reads the chart, or says why it is refused; used are those before it.
pub fn read_one<'a>(words: &'a [u32], used: &[ChartSignal]) -> Result<ChartRead<'a>, Refusal>
    ensures { ChartSaid result (chart_of (elements_in used.now) words.now) }
{
    if words.len() < HEAD_WORDS {
        return Err(Refusal::BatchLength);
    }
    let element = words[ELEMENT];
    let setup = words[SETUP_COUNT] as usize;
    let later = words[LATER_COUNT] as usize;
    let is_new = elements::is_new_element(used, element);
    let fits = chart::values::counts_fit(setup, later);
    if !is_new {
        return Err(Refusal::Chart);
    }
    if !fits {
        return Err(Refusal::Count);
    }
    read_values(words, element, setup, later)
}

// Reads the values of a chart whose first three words are good. The test of the values is the chart's own.
fn read_values(
    words: &[u32],
    element: u32,
    setup: usize,
    later: usize,
) -> Result<ChartRead<'_>, Refusal>
    requires { (head_words ≤ length words.now) × (counts_fit setup later ≡ true) }
    ensures { ChartSaid result (values_of element setup later (drop head_words words.now)) }
{
    let middle = HEAD_WORDS + setup;
    let end = middle + later;
    if words.len() < end {
        return Err(Refusal::BatchLength);
    }
    let signal = chart::last_signal(&words[HEAD_WORDS..middle], &words[middle..end])?;
    Ok(ChartRead {
        chart: ChartSignal { element, signal },
        rest: &words[end..],
    })
}
