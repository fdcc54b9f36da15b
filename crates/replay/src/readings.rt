// The calls of `reading`.
use crate::floats;
use crate::stop::Stop;
use reading::{Analysed, Reading};

// A float by its pattern. No answer of the library holds a NaN; one that did would have no pattern to print.
fn print_float(rt: &impl Print, before: &str, x: f32) -> Result<(), Stop> {
    if x.is_nan() {
        println!(rt; "nan")?;
        return Ok(());
    }
    let bits = x.to_bits();
    println!(rt; "{before}{bits}")?;
    Ok(())
}

fn print_reading(rt: &impl Print, reading: Reading) -> Result<(), Stop> {
    match reading {
        Reading::Missing => println!(rt; "missing")?,
        Reading::Measured(x) => print_float(rt, "measured ", x)?,
        Reading::Below(x) => print_float(rt, "below ", x)?,
    }
    Ok(())
}

// A reading made by hand and not by the library, so that floats out of range reach it too.
fn reading_by_hand(mark: u32, bits: u32) -> Reading {
    match mark {
        0 => Reading::Missing,
        1 => Reading::Measured(floats::of_pattern(bits)),
        _ => Reading::Below(floats::of_pattern(bits)),
    }
}

// A mark and a pattern: the reading that they are.
pub fn from_words(rt: &impl Print, words: &[u32]) -> Result<(), Stop> {
    let [mark, bits] = *words else {
        return Err(Stop::Malformed);
    };
    print_reading(rt, Reading::from_words(mark, bits)?)
}

// The patterns of a value and of its limit: the reading made of them.
pub fn to_reading(rt: &impl Print, words: &[u32]) -> Result<(), Stop> {
    let [value, limit] = *words else {
        return Err(Stop::Malformed);
    };
    let analysed = Analysed {
        value: floats::of_pattern(value),
        limit: floats::of_pattern(limit),
    };
    print_reading(rt, analysed.to_reading()?)
}

// A mark and a pattern: the amount of the reading made of them by hand.
pub fn amount(rt: &impl Print, words: &[u32]) -> Result<(), Stop> {
    let [mark, bits] = *words else {
        return Err(Stop::Malformed);
    };
    match reading_by_hand(mark, bits).amount()? {
        None => println!(rt; "missing")?,
        Some(mass) => println!(rt; "amount {}", mass.0)?,
    }
    Ok(())
}

// A mark and a pattern: the words of the reading made of them by hand.
pub fn words(rt: &impl Print, words: &[u32]) -> Result<(), Stop> {
    let [mark, bits] = *words else {
        return Err(Stop::Malformed);
    };
    let made = reading_by_hand(mark, bits).words()?;
    println!(rt; "words {} {}", made.mark, made.bits)?;
    Ok(())
}
