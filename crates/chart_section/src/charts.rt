// The charts one after another.
ghost use Rattle.std.specs.Prelude.{◌≡◌, []};
ghost use Rattle.refusal.specs.Outcome.Outcome.{refused};
ghost use Rattle.refusal.specs.Numbers.{number_of};
ghost use Rattle.chart_section.specs.Columns.{columns_with, terms_of};
ghost use Rattle.chart_section.specs.Steps.{SectionSaid};

use crate::{ChartColumns, ChartSignal, MOST_CHARTS, first};
use refusal::Refusal;

// What stands in a place beyond the last chart.
const NO_CHART: ChartSignal = ChartSignal {
    element: 0,
    signal: 0,
};

// Why there are no charts.
pub fn refused(why: Refusal) -> ChartColumns
    ensures { terms_of result ≡ columns_with (refused (number_of why)) [] }
{
    ChartColumns {
        ended: Err(why),
        count: 0,
        charts: [NO_CHART; MOST_CHARTS],
    }
}

// Reads as many charts as the section's count says, or says why it is refused.
#[tactic(auto, using(crate::proofs::ColumnLaws::charts_over))]
pub fn read_all(words: &[u32]) -> Result<ChartColumns, Refusal>
    ensures { SectionSaid result words.now }
{
    let Some((&count, mut rest)) = words.split_first() else {
        return Err(Refusal::BatchLength);
    };
    let count = count as usize;
    if count > MOST_CHARTS {
        return Err(Refusal::Count);
    }
    let mut charts = [NO_CHART; MOST_CHARTS];
    for i in 0..count {
        let read = first::read_one(rest, &charts[..i])?;
        charts[i] = read.chart;
        rest = read.rest;
    }
    Ok(ChartColumns {
        ended: Ok(words.len() - rest.len()),
        count,
        charts,
    })
}
