// Two records field by field. A difference is a whole number, so a tenth of the larger may be cut to one: then no product is
// made that could be too large.
ghost use Rattle.std.specs.Prelude.{◌≡◌};
ghost use Rattle.record.specs.Record.{ions, all_below};
ghost use Rattle.agreement.specs.Agreement.{ph_agrees, agrees_by};
ghost use Rattle.agreement.specs.Compared.{analytes_agree, ions_agree_at, agrees_in};

use reading::Analyte;
use record::{IONS, READINGS, TestedRecord};

pub fn agrees(one: TestedRecord, other: TestedRecord) -> bool
    ensures { result ≡ agrees_in one other }
{
    ph_agrees(one.ph, other.ph)
        && agrees_by(u64::from(one.conductivity), u64::from(other.conductivity))
        && agrees_by(u64::from(one.alkalinity), u64::from(other.alkalinity))
        && ions_agree(one.analytes, other.analytes)
}

fn ph_agrees(p: u32, q: u32) -> bool
    ensures { result ≡ ph_agrees p q }
{
    p.abs_diff(q) <= 10
}

// Apart by at most a tenth of the larger.
fn agrees_by(x: u64, y: u64) -> bool
    ensures { result ≡ agrees_by x y }
{
    x.abs_diff(y) <= x.max(y) / 10
}

fn ions_agree(a: [Analyte; READINGS], b: [Analyte; READINGS]) -> bool
    ensures { result ≡ all_below (ions_agree_at a b) ions }
{
    for i in 0..IONS {
        if !readings_agree(a[i], b[i]) {
            return false;
        }
    }
    true
}

// Missing agrees only with missing.
fn readings_agree(first: Analyte, second: Analyte) -> bool
    ensures { result ≡ analytes_agree first second }
{
    match (first.is_present(), second.is_present()) {
        (true, true) => agrees_by(first.mass.0, second.mass.0),
        (one, other) => one == other,
    }
}
