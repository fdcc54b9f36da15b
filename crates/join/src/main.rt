// The program of document 02 (iii): joins the batches of two files, and writes the joined file to standard output, or the line
// `refused N`. What keeps it from reading two files it says on standard error, and then writes nothing else.
#![tactic(auto)]

mod failure;
mod file;

use batch::input::MOST_BYTES;
use std::env::FillError;
use std::io;
use std::rt::Env;

// One byte more than the longest batch has, so that a longer file is seen to be longer and refused, never cut.
const ROOM: usize = MOST_BYTES + 1;

fn write_file(rt: &(impl Print + Eprint), bytes: &[u8]) -> io::Result<()> {
    rt.write_all(bytes).or_else(|why| failure::tell(
        rt,
        "join: the joined file was not written",
        why,
    ))
}

fn join(rt: &(impl Print + Eprint), first: &[u8], second: &[u8]) -> io::Result<()> {
    let mut joined = [0u8; MOST_BYTES];
    // By `match`: a refusal is an answer, and printed.
    match joining::files::join_bytes(first, second, &mut joined) {
        Ok(size) => write_file(rt, &joined[..size]),
        Err(why) => println!(rt; "{why}"),
    }
}

// Whether there is such an argument. One that is too long to be read is there too.
fn is_given(rt: &impl Env, argument: usize) -> bool {
    let mut space = [0u8; 1];
    !matches!(rt.arg(argument, &mut space), Err(FillError::NotPresent))
}

fn main(rt: HostRuntime) -> io::Result<()> {
    // The program's own name is argument 0.
    if !is_given(&rt, 2) || is_given(&rt, 3) {
        return eprintln!(rt; "join: expected two files of little-endian words: join FIRST SECOND");
    }
    let mut first = [0u8; ROOM];
    let Some(n) = file::read(&rt, 1, "FIRST", &mut first)? else {
        return Ok(());
    };
    let mut second = [0u8; ROOM];
    let Some(m) = file::read(&rt, 2, "SECOND", &mut second)? else {
        return Ok(());
    };
    join(&rt, &first[..n], &second[..m])
}
