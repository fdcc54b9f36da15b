// The calls of `batch` and `listing`.
use crate::lent;
use crate::stop::Stop;

// How many words to lend, and a batch: its answer.
pub fn judge_batch(rt: &impl Print, words: &[u32]) -> Result<(), Stop> {
    let (room, words) = words.split_first().ok_or(Stop::Malformed)?;
    let mut space = [0u32; lent::MOST_WORDS];
    let out = space.get_mut(..*room as usize).ok_or(Stop::Malformed)?;
    lent::fill(out);
    let answer = batch::judge_batch(words, out);
    lent::print_answer(rt, "written ", answer)?;
    lent::print_all(rt, out)
}

// A batch: whether it passes its own tests.
pub fn test(rt: &impl Print, words: &[u32]) -> Result<(), Stop> {
    batch::test(words)?;
    println!(rt; "passed")?;
    Ok(())
}

// How many bytes to lend, how many bytes are the input, and words that hold them: the listing's text.
// A call of its own: within `main` its buffers, a whole batch and its text, would be on the stack under every other case.
#[inline(never)]
pub fn list(rt: &impl Print, words: &[u32]) -> Result<(), Stop> {
    let ([room, count], words) = words.split_first_chunk::<2>().ok_or(Stop::Malformed)?;
    let mut text_space = [lent::OLD_BYTE; lent::MOST_BYTES];
    let text = text_space.get_mut(..*room as usize).ok_or(Stop::Malformed)?;
    if *count as usize > 4 * words.len() {
        return Err(Stop::Malformed);
    }
    let mut space = [0u8; lent::MOST_INPUT];
    words::pack(words, &mut space);
    let bytes = space.get(..*count as usize).ok_or(Stop::Malformed)?;
    let answer = listing::list(bytes, text);
    lent::print_answer(rt, "listed ", answer)?;
    lent::print_all(rt, text)
}
