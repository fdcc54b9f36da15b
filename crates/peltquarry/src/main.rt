// The listing program of document 01: reads a batch from standard input and prints its text on standard output.
#![tactic(auto)]

use std::io;

fn main(rt: HostRuntime) -> io::Result<()> {
    // One byte more than a batch has, so that a longer input is seen to be longer and refused, never cut.
    let mut bytes = [0u8; batch::input::MOST_BYTES + 1];
    let count = input::read_full(&mut rt.reader(), &mut bytes);
    let mut text = [0u8; listing::MOST_TEXT];
    let length = listing::text_of(&bytes[0..count], &mut text);
    rt.write_all(&text[0..length])
}
