// The rows of an answer.
ghost use Rattle.std.specs.Prelude.{◌≡◌};
ghost use Rattle.record.specs.Tested.{fields_in, has_reading_in};
ghost use Rattle.judge.specs.Judgements.{numbers_of};
ghost use Rattle.batch.specs.Steps.{flagged_by, row_in};

use crate::ROW_WORDS;
use chart_section::ChartSignal;
use judge::Verdicts;
use record::{TestedRecord, number};

// The row of a judged record.
pub fn row(own: TestedRecord, verdicts: Verdicts, charts: &[ChartSignal]) -> [u32; ROW_WORDS]
    ensures { result ≡ row_in own (numbers_of verdicts) charts.now }
{
    let parts = number::parts_of(own.number);
    let [balance, conductivity, ratio, nitrogen] = verdicts.numbers();
    [
        parts.high,
        parts.low,
        balance,
        conductivity,
        ratio,
        nitrogen,
        u32::from(flagged(own, charts)),
    ]
}

// Whether some chart has a signal, and its element is not missing in the record.
fn flagged(own: TestedRecord, charts: &[ChartSignal]) -> bool
    ensures { result ≡ flagged_by charts.now (has_reading_in (fields_in own)) }
{
    charts.iter().any(|chart| chart.signal != 0 && record::has_reading(own, chart.element))
}
