// The call of `hydrogen`.
use crate::stop::Stop;

// p: the floor of true hydrogen there.
pub fn floor_at(rt: &impl Print, words: &[u32]) -> Result<(), Stop> {
    let [p] = *words else {
        return Err(Stop::Malformed);
    };
    let h = hydrogen::floor_at(p)?;
    println!(rt; "floor {h}")?;
    Ok(())
}
