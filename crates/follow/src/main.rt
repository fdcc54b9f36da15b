// Follows the analyses of a bottle: records from standard input, offered in turn to a fresh docket, and a line of text for
// each: the answer, the state and the count. A rest that is not a whole record is offered as it is.
#![tactic(auto)]

use docket::Docket;
use refusal::Refusal;
use std::io;
use std::io::Read;

// By `match`: each answer has a text of its own.
fn print_answer(rt: &impl Print, answer: Result<(), Refusal>) -> io::Result<()> {
    match answer {
        Ok(()) => print!(rt; "taken "),
        Err(why) => print!(rt; "{why} "),
    }
}

// Reads a record, offers it and prints its line. The docket after it, where the input may hold more.
fn offer_next(
    rt: &impl Print,
    reader: &mut impl Read,
    before: Docket,
) -> io::Result<Option<Docket>> {
    // No heap: room for a record, of which a slice goes on.
    let mut words = [0u32; record::WORDS];
    let got = input::read(reader, &mut words);
    if got.bytes == 0 {
        return Ok(None);
    }
    let offered = docket::offer(before, &words[..got.words]);
    print_answer(rt, offered.answer)?;
    let after = offered.docket;
    let state = after.state;
    let count = after.count;
    print!(rt; "{state} ")?;
    println!(rt; "{count}")?;
    Ok((got.words == record::WORDS).then_some(after))
}

// A loop has to end, and nothing says that the input does. So the turns are bounded, by a number that no run uses up.
fn main(rt: HostRuntime) -> io::Result<()> {
    let mut reader = rt.reader();
    let mut docket = docket::fresh();
    for _ in 0..u64::MAX {
        let Some(next) = offer_next(&rt, &mut reader, docket)? else {
            break;
        };
        docket = next;
    }
    Ok(())
}
