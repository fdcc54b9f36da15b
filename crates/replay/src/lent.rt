// Slices that are lent for an answer: their old content, and how they are shown after the call.
ghost use Rattle.std.specs.Prelude.{◌≤◌, length};

use crate::stop::Stop;
use refusal::Refusal;
use std::fmt;

// The old content of a lent word, less its index.
const OLD: u32 = 900000000;

// The most words that are lent.
// A call makes its own buffer of this size, of which a part is lent: there is no heap, and each call has other arguments.
pub const MOST_WORDS: usize = 320;

// The old content of lent bytes, and the most that are lent.
pub const OLD_BYTE: u8 = 126;

pub const MOST_BYTES: usize = 1024;

// The most bytes that a case lends as the input of a call.
pub const MOST_INPUT: usize = 4096;

// Every word gets another old content, so that one that moved is seen.
pub fn fill(out: &mut [u32])
    requires { length out.old ≤ 320 }
{
    for (i, word) in out.iter_mut().enumerate() {
        *word = OLD + i as u32;
    }
}

// What a call answered that wrote to a lent slice, and no end of the line.
pub fn print_answer(
    rt: &impl Print,
    name: &str,
    answer: Result<usize, Refusal>,
) -> Result<(), Stop> {
    match answer {
        Ok(n) => print!(rt; "{name}{n}")?,
        Err(why) => print!(rt; "{why}")?,
    }
    Ok(())
}

// What a lent slice holds, as numbers, and the end of the line.
pub fn print_all<T: fmt::Display>(rt: &impl Print, out: &[T]) -> Result<(), Stop> {
    for item in out {
        print!(rt; " {item}")?;
    }
    println!(rt; "")?;
    Ok(())
}
