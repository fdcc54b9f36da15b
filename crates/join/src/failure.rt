// What is said on standard error of a call of the system that failed.
use std::io::{Cursor, Write};
use std::{io, str};

// The most bytes of a failure's text.
const MOST_TEXT: usize = 256;

// Writes a line: what failed, as the caller names it, a colon and why.
pub fn tell(rt: &impl Eprint, what: &str, why: io::Error) -> io::Result<()> {
    let mut written = Cursor::new([0u8; MOST_TEXT]);
    write!(written, "{why}")?;
    let text = text_of(written.get_ref());
    eprintln!(rt; "{what}: {text}")
}

// The text before the first zero, and without the number that stands after the system's own.
fn text_of(written: &[u8]) -> &str {
    let end = written
        .iter()
        .position(|byte| *byte == 0)
        .unwrap_or(written.len());
    let text = str::from_utf8(&written[..end]).unwrap_or("");
    text.split_once(" (os error ")
        .map_or(text, |(before, _)| before)
}
