// The calls by their numbers. A call prints its line, or prints nothing and stops where the words are not what it takes.
use crate::stop::Stop;
use crate::{batches, control_charts, dockets, floors, joins, readings, records, refusals};

pub fn answer(rt: &impl Print, call: u32, words: &[u32]) -> Result<(), Stop> {
    // By `match` and no table of functions: the call comes as a number of the input.
    match call {
        1 => floors::floor_at(rt, words),
        2 => readings::from_words(rt, words),
        3 => readings::to_reading(rt, words),
        4 => readings::amount(rt, words),
        5 => readings::words(rt, words),
        6 => refusals::number(rt, words),
        7 => records::judge(rt, words),
        8 => records::agree(rt, words),
        9 => dockets::offers(rt, words),
        10 => control_charts::signals(rt, words),
        11 => control_charts::last_signal(rt, words),
        12 => batches::judge_batch(rt, words),
        13 => batches::list(rt, words),
        14 => records::has_reading(rt, words),
        15 => records::same_sample(rt, words),
        16 => dockets::follow(rt, words),
        17 => joins::join(rt, words),
        18 => batches::test(rt, words),
        19 => joins::join_bytes(rt, words),
        _ => Err(Stop::Malformed),
    }
}
