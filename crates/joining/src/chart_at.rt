// The chart at the front of words that have been tested.
ghost use Rattle.std.specs.Prelude.{◌≡◌, ◌≤◌, length, drop};
ghost use Rattle.chart.specs.Values.{most_setup, most_later};

use chart_section::{ELEMENT, HEAD_WORDS, LATER_COUNT, SETUP_COUNT};

// A chart of a batch: what it is found by in the other one, its element, and its values, which are lent from the batch's words.
#[derive(Clone, Copy)]
// Nothing compares or prints it.
pub struct Chart<'a> {
    pub element: u32,
    pub setup: &'a [u32],
    pub later: &'a [u32],
    ghost few_setup: { length setup.now ≤ most_setup },
    ghost few_later: { length later.now ≤ most_later },
}

impl<'a> Chart<'a> {
    ghost use Rattle.joining.specs.Steps.{ChartThere, chart_at, chart_size, terms_of};

    // The chart, and the words behind it.
    pub fn split(words: &'a [u32]) -> (Chart<'a>, &'a [u32])
        requires { ChartThere words.now }
        ensures chart { terms_of result.0 ≡ chart_at words.now }
        ensures rest { result.1.now ≡ drop (chart_size words.now) words.now }
    {
        let (head, values) = words.split_at(HEAD_WORDS);
        let (setup, values) = values.split_at(head[SETUP_COUNT] as usize);
        let (later, rest) = values.split_at(head[LATER_COUNT] as usize);
        let chart = Chart {
            element: head[ELEMENT],
            setup,
            later,
        };
        (chart, rest)
    }
}
