// The charts of the first batch, each joined with the second's of its key.
ghost use Rattle.std.specs.Prelude.{◌≡◌, [], ◌<◌};
ghost use Rattle.chart_section.specs.ChartSection.{most_charts};
ghost use Rattle.joining.specs.Charts.{match_in, Match};
ghost use Rattle.joining.specs.Steps.{HasCharts, charts_in, ChartSaid, FirstSaid, Holds, terms_of};

use crate::buffer::Buffer;
use crate::chart_at::Chart;
use crate::finding;
use chart::values::MOST_LATER;
use refusal::Refusal;

// Joins a chart with that of its key among the second batch's, if there is one, in the buffer.
fn join_one(chart: Chart, second: &[u32], buffer: &mut Buffer) -> Result<(), Refusal>
    requires { HasCharts second.now × (buffer.old.count < most_charts) }
    ensures { ChartSaid result (terms_of chart.entry) (match_in (charts_in second.now) chart.entry.element) buffer.old buffer.new }
{
    match finding::find(second, chart.element) {
        Some(other) => join_both(chart, other, buffer),
        // It has no more later values than its own.
        None => {
            buffer.put(chart, &[]);
            Ok(())
        }
    }
}

// Joins two charts of one key: their setup values, 14, then the later ones, 15.
#[tactic(auto, using(crate::proofs::StepLaws::same_as))]
fn join_both(chart: Chart, other: Chart, buffer: &mut Buffer) -> Result<(), Refusal>
    requires { buffer.old.count < most_charts }
    ensures { ChartSaid result (terms_of chart.entry) (Match.both (terms_of other.entry)) buffer.old buffer.new }
{
    if chart.setup != other.setup {
        return Err(Refusal::SetupDiffers);
    }
    if chart.later.len() + other.later.len() > MOST_LATER {
        return Err(Refusal::JoinedCount);
    }
    buffer.put(chart, other.later);
    Ok(())
}

// Joins the charts of the first batch in the buffer, one behind another, and answers the first's words behind its charts.
pub fn join_first<'a>(
    first: &'a [u32],
    second: &[u32],
    buffer: &mut Buffer,
) -> Result<&'a [u32], Refusal>
    requires { HasCharts first.now × HasCharts second.now × Holds buffer.old [] }
    ensures { FirstSaid result first.now (charts_in second.now) buffer.new }
{
    let mut rest = &first[1..];
    for _ in 0..first[0] {
        let (chart, after) = Chart::split(rest);
        join_one(chart, second, buffer)?;
        rest = after;
    }
    Ok(rest)
}
