// The signal words of a chart's later values: each is the sum of the numbers of the rules that it meets.
ghost use Rattle.std.specs.Prelude.{◌≡◌, ◌+◌, ◌<◌, length, IfOk, IsTrue};
ghost use Rattle.refusal.specs.Outcome.{outcome_by};
ghost use Rattle.refusal.specs.Outcome.Outcome.{given};
ghost use Rattle.chart.specs.Setups.{setup_of};
ghost use Rattle.chart.specs.Values.{all_values, tested};
ghost use Rattle.chart.specs.Rules.{weight, pair_beyond_two, seven_on_one_side, seven_in_order, signal_at};
ghost use Rattle.chart.specs.Steps.{has_partner, in_order};

use crate::setup::Setup;
use crate::values;
use refusal::Refusal;

// How many values before it the rules of seven look at.
const EARLIER: usize = 6;

// A chart whose values passed their tests: what its setup values come to, and its later values.
#[derive(Drop)]
pub struct Chart<'a> {
    pub setup: Setup,
    pub later: &'a [u32],
    ghost in_range: { IsTrue (all_values later.now) },
}

impl<'a> Chart<'a> {
    pub fn of(setup: &[u32], later: &'a [u32]) -> Result<Chart<'a>, Refusal>
        ensures answer { outcome_by (λ c. c.setup) result ≡ tested setup.now later.now (given (setup_of setup.now)) }
        ensures same { IfOk result (λ c. c.later.now ≡ later.now) }
    {
        values::test(setup, later)?;
        Ok(Chart {
            setup: Setup::of(setup),
            later,
        })
    }

    // The signal word of the later value at place i.
    // A clause and no type: a place is any number below the length, and a type of places could say no more.
    pub fn signal_at(&self, i: usize) -> u32
        requires { i < length self.now.later.now }
        ensures { result ≡ signal_at self.now.setup self.now.later.now i }
    {
        let one = weight(self.setup.beyond(3, self.later[i]), 1);
        let two = weight(self.pair_beyond_two(i), 2);
        one + two + self.of_seven(i)
    }

    // Rule 2. Few values are beyond 2 at all: the others are done before any earlier value is looked at.
    fn pair_beyond_two(&self, i: usize) -> bool
        requires { i < length self.now.later.now }
        ensures { result ≡ pair_beyond_two self.now.setup self.now.later.now i }
    {
        self.setup.beyond(2, self.later[i]) && (self.has_partner(i, 1) || self.has_partner(i, 2))
    }

    // Whether the value so many places before it is beyond 2 on the same side.
    fn has_partner(&self, i: usize, places: usize) -> bool
        requires { i < length self.now.later.now }
        ensures { result ≡ has_partner self.now.setup self.now.later.now i places }
    {
        let Some(before) = i.checked_sub(places) else {
            return false;
        };
        let other = self.later[before];
        self.setup.on_one_side(&[self.later[i], other]) & self.setup.beyond(2, other)
    }

    // What rules 4 and 8 add: nothing, where there are not six values before it.
    fn of_seven(&self, i: usize) -> u32
        requires { i < length self.now.later.now }
        ensures { result ≡ weight (seven_on_one_side self.now.setup self.now.later.now i) 4 + weight (seven_in_order self.now.later.now i) 8 }
    {
        let Some(from) = i.checked_sub(EARLIER) else {
            return 0;
        };
        let seven = &self.later[from..=i];
        weight(self.setup.on_one_side(seven), 4) + weight(in_order(seven), 8)
    }
}

// Rule 8: all rising, or all falling. The loop has no way out before its end, as that of rule 4.
fn in_order(seven: &[u32]) -> bool
    ensures { result ≡ in_order seven.now }
{
    let mut rising = true;
    let mut falling = true;
    for pair in seven.windows(2) {
        rising &= pair[0] < pair[1];
        falling &= pair[1] < pair[0];
    }
    rising | falling
}

// A rule's number where it is met, else nothing.
// Two ways and no product: so the definition has it.
fn weight(met: bool, number: u32) -> u32
    ensures { result ≡ weight met number }
{
    if met { number } else { 0 }
}
