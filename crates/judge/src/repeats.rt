// How a repeat compares with the record before it, for a docket.
ghost use Rattle.std.specs.Prelude.{◌≡◌};
ghost use Rattle.refusal.specs.Outcome.{outcome_of};
ghost use Rattle.judge.specs.Repeats.{comparison_outcome, compared_by};

use crate::Comparison;
use refusal::Refusal;

// By whether the two agree, or why that is not told, and whether they are of one sample.
pub fn comparison(agree: Result<bool, Refusal>, same: bool) -> Result<Comparison, Refusal>
    ensures { comparison_outcome result ≡ compared_by (outcome_of agree) same }
{
    let agree = agree?;
    Ok(if !same {
        Comparison::OtherSample
    } else if agree {
        Comparison::Agree
    } else {
        Comparison::Differ
    })
}
