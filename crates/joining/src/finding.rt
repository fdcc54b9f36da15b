// The chart of a key among those of a batch.
ghost use Rattle.std.specs.Prelude.{◌≡◌};
ghost use Rattle.joining.specs.Charts.{match_in};
ghost use Rattle.joining.specs.Steps.{HasCharts, charts_in, match_of};

use crate::chart_at::Chart;

// The words are those of a batch whose charts have been tested.
// A clause and no type: what it says is of a batch's words whole, which its four callers hand on as they are.
pub fn find<'a>(words: &'a [u32], key: u32) -> Option<Chart<'a>>
    requires { HasCharts words.now }
    ensures { match_of result ≡ match_in (charts_in words.now) key }
{
    let mut rest = &words[1..];
    for _ in 0..words[0] {
        let (chart, after) = Chart::split(rest);
        if chart.element == key {
            return Some(chart);
        }
        rest = after;
    }
    None
}
