// The calls of `chart`.
use crate::stop::Stop;
use crate::{lent, parts};

// How many setup values, how many words to lend, and the values: the signal words.
pub fn signals(rt: &impl Print, words: &[u32]) -> Result<(), Stop> {
    let ([setup, room], values) = words.split_first_chunk::<2>().ok_or(Stop::Malformed)?;
    let (setup, later) = values
        .split_at_checked(*setup as usize)
        .ok_or(Stop::Malformed)?;
    let mut space = [0u32; lent::MOST_WORDS];
    let out = space.get_mut(..*room as usize).ok_or(Stop::Malformed)?;
    lent::fill(out);
    let answer = chart::signals(setup, later, out);
    lent::print_answer(rt, "signals ", answer)?;
    lent::print_all(rt, out)
}

// How many setup values, and the values: the signal at the last later value.
pub fn last_signal(rt: &impl Print, words: &[u32]) -> Result<(), Stop> {
    let (setup, later) = parts::two(words)?;
    let signal = chart::last_signal(setup, later)?;
    println!(rt; "signal {signal}")?;
    Ok(())
}
