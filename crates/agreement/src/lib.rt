// Whether two analyses of a sample agree (document 01, 'The docket').
#![tactic(auto)]

mod comparison;

ghost use Rattle.std.specs.Prelude.{◌≡◌};
ghost use Rattle.refusal.specs.Outcome.{outcome_of};
ghost use Rattle.record.specs.Tested.{terms_of};
ghost use Rattle.agreement.specs.Agreement.{agreement_of};
ghost use Rattle.agreement.specs.Compared.{compared_of};

use record::TestedRecord;
use refusal::Refusal;

// Whether two slices are records that agree, or why that is not told. The first is refused before the second.
pub fn agree(first: &[u32], second: &[u32]) -> Result<bool, Refusal>
    ensures { outcome_of result ≡ agreement_of first.now second.now }
{
    let one = record::test(first);
    let other = record::test(second);
    compare(one, other)
}

// Whether two records agree, by how their own tests ended and the fields that these hand on. It takes any fields.
pub fn compare(one: TestedRecord, other: TestedRecord) -> Result<bool, Refusal>
    ensures { outcome_of result ≡ compared_of (terms_of one) (terms_of other) }
{
    one.tested?;
    other.tested?;
    Ok(comparison::agrees(one, other))
}
