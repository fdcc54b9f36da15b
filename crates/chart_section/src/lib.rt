// The control charts of a batch, read from the front: each one's element and its last signal (document 01, 'A batch').
#![tactic(auto)]

mod charts;
mod columns;
mod elements;
mod first;

ghost use Rattle.std.specs.Prelude.{◌≡◌};
ghost use Rattle.chart_section.specs.Columns.{columns_of, terms_of};

use chart::values::{MOST_LATER, MOST_SETUP};
pub use columns::{ChartColumns, ChartSignal};

pub const MOST_CHARTS: usize = 10;

// A chart's words before its values: element, setup count and later count.
pub const HEAD_WORDS: usize = 3;

// Where each of them stands.
pub const ELEMENT: usize = 0;

pub const SETUP_COUNT: usize = 1;

pub const LATER_COUNT: usize = 2;

// The words of a chart that has the most values of both sorts.
pub const MOST_CHART: usize = HEAD_WORDS + (MOST_SETUP + MOST_LATER);

// Reads the charts' section at the front of the words.
pub fn read(words: &[u32]) -> ChartColumns
    ensures { terms_of result ≡ columns_of words.now }
{
    // By `match`: a refused section is a value too, and nothing is passed on.
    match charts::read_all(words) {
        Ok(columns) => columns,
        Err(why) => charts::refused(why),
    }
}
