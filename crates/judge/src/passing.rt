// Whether checks passed, for a docket.
ghost use Rattle.std.specs.Prelude.{◌≡◌};
ghost use Rattle.judge.specs.Numbers.{verdict_number};
ghost use Rattle.judge.specs.Judgements.{numbers_of};
ghost use Rattle.judge.specs.Passing.{is_passed, all_passed};

use crate::{Verdict, Verdicts};

impl Verdict {
    fn is_passed(self) -> bool
        ensures { result ≡ is_passed (verdict_number self) }
    {
        matches!(self, Verdict::NotApplicable | Verdict::Within)
    }
}

impl Verdicts {
    // Whether every check is 0 or 1.
    #[tactic(auto, unfolding(crate::specs::Passing::all_passed))]
    // By name and no array of four: a line for each check.
    pub fn all_passed(self) -> bool
        ensures { result ≡ all_passed (numbers_of self) }
    {
        self.balance.is_passed()
            && self.conductivity.is_passed()
            && self.ratio.is_passed()
            && self.nitrogen.is_passed()
    }
}
