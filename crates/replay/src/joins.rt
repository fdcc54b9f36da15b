// The calls of `joining`.
use crate::lent;
use crate::stop::Stop;

// How many words to lend, how many words are the first batch, and both batches: the joined one.
pub fn join(rt: &impl Print, words: &[u32]) -> Result<(), Stop> {
    let ([room, count], batches) = words.split_first_chunk::<2>().ok_or(Stop::Malformed)?;
    let mut space = [0u32; lent::MOST_WORDS];
    let out = space.get_mut(..*room as usize).ok_or(Stop::Malformed)?;
    let (first, second) = batches
        .split_at_checked(*count as usize)
        .ok_or(Stop::Malformed)?;
    lent::fill(out);
    let answer = joining::join(first, second, out);
    lent::print_answer(rt, "joined ", answer)?;
    lent::print_all(rt, out)
}

// How many bytes to lend, how many bytes are the first file and how many the second, and words that hold them: the joined file.
pub fn join_bytes(rt: &impl Print, words: &[u32]) -> Result<(), Stop> {
    let ([room, first, second], words) = words.split_first_chunk::<3>().ok_or(Stop::Malformed)?;
    let mut out_space = [lent::OLD_BYTE; lent::MOST_BYTES];
    let out = out_space.get_mut(..*room as usize).ok_or(Stop::Malformed)?;
    let all = *first as usize + *second as usize;
    if all > 4 * words.len() {
        return Err(Stop::Malformed);
    }
    let mut space = [0u8; lent::MOST_INPUT];
    words::pack(words, &mut space);
    let bytes = space.get(..all).ok_or(Stop::Malformed)?;
    let (first, second) = bytes
        .split_at_checked(*first as usize)
        .ok_or(Stop::Malformed)?;
    let answer = joining::files::join_bytes(first, second, out);
    lent::print_answer(rt, "joined ", answer)?;
    lent::print_all(rt, out)
}
