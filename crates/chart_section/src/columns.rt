// What the charts of a batch tell its samples.
ghost use Rattle.std.specs.Prelude.{◌≡◌, ◌≤◌, take};
ghost use Rattle.chart_section.specs.ChartSection.{most_charts};

use crate::MOST_CHARTS;
use refusal::Refusal;

// What the samples of a batch are told of a chart: its element and its last signal.
#[derive(Clone, Copy, Debug, PartialEq, Eq)]
pub struct ChartSignal {
    pub element: u32,
    pub signal: u32,
}

// How reading the charts' section ended, whole with so many words or refused; how many charts there are, and what each tells, with
// 0 in the places beyond. After a refusal there is no chart, and every place is 0: that is promised, so the outcome stands beside
// the charts and is no `Result` of them.
#[derive(Clone, Copy, Debug, PartialEq, Eq)]
pub struct ChartColumns {
    pub ended: Result<usize, Refusal>,
    pub count: usize,
    pub charts: [ChartSignal; MOST_CHARTS],
    ghost few: { count ≤ most_charts },
}

impl ChartColumns {
    // The charts that there are.
    pub fn charts(&self) -> &[ChartSignal]
        ensures { result.now ≡ take self.now.count self.now.charts }
    {
        &self.charts[..self.count]
    }
}
