// A test program: many cases on one standard input, calls of the libraries, a line of text for each answer.
// The input is words of four bytes, least byte first. A case is the number of a call, a count, and that many words.
// At a case that is malformed, or that the input ends in the middle of, it prints `malformed` and stops.
#![tactic(auto)]

mod batches;
mod calls;
mod control_charts;
mod dockets;
mod floats;
mod floors;
mod joins;
mod lent;
mod parts;
mod readings;
mod records;
mod refusals;
mod stop;

use std::io;
use std::io::Read;
use stop::Stop;

// Reads the words of a case and answers it.
fn answer_case(rt: &impl Print, reader: &mut impl Read, call: u32, count: u32) -> Result<(), Stop> {
    // No heap: room for the most words of a case, of which a slice goes on.
    let mut words = [0u32; input::MOST_WORDS];
    let case = words.get_mut(..count as usize).ok_or(Stop::Malformed)?;
    let got = input::read(reader, case);
    if got.words < case.len() {
        return Err(Stop::Malformed);
    }
    calls::answer(rt, call, case)
}

// Reads a case and prints its line.
fn replay_case(rt: &impl Print, reader: &mut impl Read) -> Result<(), Stop> {
    let mut head = [0u32; 2];
    let got = input::read(reader, &mut head);
    if got.bytes == 0 {
        return Err(Stop::Ended);
    }
    if got.words < 2 {
        return Err(Stop::Malformed);
    }
    let [call, count] = head;
    answer_case(rt, reader, call, count)
}

// A loop has to end, and nothing says that the input does. So the turns are bounded, by a number that no run uses up.
fn main(rt: HostRuntime) -> io::Result<()> {
    let mut reader = rt.reader();
    for _ in 0..u64::MAX {
        match replay_case(&rt, &mut reader) {
            Ok(()) => {}
            Err(Stop::Refused(why)) => println!(rt; "{why}")?,
            Err(Stop::Ended) => return Ok(()),
            Err(Stop::Malformed) => return println!(rt; "malformed"),
            Err(Stop::Failed(why)) => return Err(why),
        }
    }
    Ok(())
}
