// The charts that are found only in the second batch.
ghost use Rattle.std.specs.Prelude.{◌≡◌, map};
ghost use Rattle.joining.specs.Charts.{joined_chart, joined_charts};
ghost use Rattle.joining.specs.Steps.{HasCharts, charts_in, rest_in, Holds};

use crate::buffer::Buffer;
use crate::chart_at::Chart;
use crate::finding;

// Puts the charts found only in the second batch behind those that the buffer holds, and answers the second's words behind its
// charts.
pub fn add_second<'a>(first: &[u32], second: &'a [u32], buffer: &mut Buffer) -> &'a [u32]
    requires has_charts { HasCharts first.now × HasCharts second.now }
    requires held { Holds buffer.old (map (joined_chart (charts_in second.now)) (charts_in first.now)) }
    ensures rest { result.now ≡ rest_in second.now }
    ensures held { Holds buffer.new (joined_charts (charts_in first.now) (charts_in second.now)) }
{
    let mut rest = &second[1..];
    for _ in 0..second[0] {
        let (chart, after) = Chart::split(rest);
        if finding::find(first, chart.element).is_none() {
            // It has no more later values than its own.
            buffer.put(chart, &[]);
        }
        rest = after;
    }
    rest
}
