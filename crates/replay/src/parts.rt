// Words taken apart.
use crate::stop::Stop;

// A count, and words: the first of them, as many as the count says, and the rest.
pub fn two(words: &[u32]) -> Result<(&[u32], &[u32]), Stop> {
    let (count, both) = words.split_first().ok_or(Stop::Malformed)?;
    both.split_at_checked(*count as usize)
        .ok_or(Stop::Malformed)
}
