// What a chart's setup values come to, made once for all later values, and values against it. All in whole numbers: nothing is
// divided, so nothing is rounded.
ghost use Rattle.std.specs.Prelude.{◌≡◌, ◌≤◌, length, IsTrue};
ghost use Rattle.chart.specs.Setups.{beyond, setup_of};
ghost use Rattle.chart.specs.Values.{all_values, greatest_value, most_setup};
ghost use Rattle.chart.specs.Steps.{on_one_side};

use std::marker::Model;

// How many values, their sum and the sum of their squares: n, S and Q of document 01; and the limit at one deviation,
// n × (n×Q − S²).
#[derive(Drop)]
// Nothing compares, copies or prints it.
pub struct Setup {
    n: u64,
    sum: u64,
    squares: u64,
    limit: u64,
}

// A contract sees the document's three numbers. They are those of values that are accepted, so nothing made of them wraps.
impl Model for Setup {
    ghost use Rattle.chart.specs.Setups.{SetupTerms};

    ghost Value = { SetupTerms };

    ghost use Rattle.chart.specs.Steps.{terms_of, OfValues};

    ghost view = { terms_of };

    ghost invariant = { OfValues };
}

impl Setup {
    pub fn of(values: &[u32]) -> Setup
        requires count { (1 ≤ length values.now) × (length values.now ≤ most_setup) }
        requires in_range { IsTrue (all_values values.now) }
        ensures { result ≡ setup_of values.now }
    {
        let n = values.len() as u64;
        let mut sum: u64 = 0;
        let mut squares: u64 = 0;
        // Both in one pass: by a chain for each, a chart of 64 setup values and no later one took a quarter more.
        for &value in values {
            let v = u64::from(value);
            sum += v;
            squares += v * v;
        }
        Setup {
            n,
            sum,
            squares,
            limit: n * (n * squares - sum * sum),
        }
    }

    // Whether a value is beyond k deviations.
    pub fn beyond(&self, k: u64, value: u32) -> bool
        requires { (k ≤ 3) × (value ≤ greatest_value) }
        ensures { result ≡ beyond self.now k value }
    {
        let gap = (self.n * u64::from(value)).abs_diff(self.sum);
        k * k * self.limit < gap * gap * (self.n - 1)
    }

    // Rule 4: all above the mean, or all below it. n times a value against the sum is the value against the mean. The loop has no
    // way out before its end: values change sides at any time, and a branch that cannot be foreseen costs more than the comparisons
    // that it spares.
    pub fn on_one_side(&self, values: &[u32]) -> bool
        requires { IsTrue (all_values values.now) }
        ensures { result ≡ on_one_side self.now values.now }
    {
        let mut above = true;
        let mut below = true;
        for &value in values {
            let times = self.n * u64::from(value);
            above &= self.sum < times;
            below &= times < self.sum;
        }
        above | below
    }
}
