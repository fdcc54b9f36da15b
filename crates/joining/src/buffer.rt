// The joined charts, one behind another, as words.
ghost use Rattle.std.specs.Prelude.{◌≡◌, [], ◌++◌, ◌+◌, ◌*◌, ◌<◌, ◌≤◌, length};
ghost use Rattle.chart.specs.Values.{most_later};
ghost use Rattle.chart_section.specs.ChartSection.{most_chart, most_charts};

use crate::chart_at::Chart;
use chart_section::{MOST_CHART, MOST_CHARTS};

// How many charts it holds, and how many of its words they take.
#[derive(Drop)]
pub struct Buffer {
    pub words: [u32; MOST_CHARTS * MOST_CHART],
    pub size: usize,
    pub count: usize,
    ghost few: { count ≤ most_charts },
    ghost room: { size ≤ most_chart * count },
}

impl Buffer {
    ghost use Rattle.joining.specs.Steps.{Holds, Put, held_words, more_later, terms_of};

    // One that holds no chart.
    pub fn new() -> Buffer
        ensures { Holds result [] }
    {
        Buffer {
            words: [0u32; MOST_CHARTS * MOST_CHART],
            size: 0,
            count: 0,
        }
    }

    // The words of the charts that it holds.
    pub fn charts(&self) -> &[u32]
        ensures { result.now ≡ held_words self.now }
    {
        &self.words[..self.size]
    }

    // Puts a chart behind those that it holds, with more later values behind the chart's own.
    pub fn put(&mut self, chart: Chart, more: &[u32])
        requires { (length chart.later.now + length more.now ≤ most_later) × (self.old.count < most_charts) }
        ensures { Put self.old self.new (more_later (terms_of chart.entry) more.now) }
    {
        let later = chart.later.len() + more.len();
        self.count += 1;
        self.append(&[chart.element, chart.setup.len() as u32, later as u32]);
        self.append(chart.setup);
        self.append(chart.later);
        self.append(more);
    }

    // Puts words behind those that it holds.
    fn append(&mut self, words: &[u32])
        requires { self.old.size + length words.now ≤ most_chart * self.old.count }
        ensures held { held_words self.new ≡ held_words self.old ++ words.now }
        ensures size { self.new.size ≡ self.old.size + length words.now }
        ensures count { self.new.count ≡ self.old.count }
    {
        words::place(words, &mut self.words, self.size);
        self.size += words.len();
    }
}
