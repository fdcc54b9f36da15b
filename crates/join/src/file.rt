// The bytes of a file that an argument names.
ghost use Rattle.std.specs.Prelude.{◌≤◌, length, IfOk, IfSome};

use crate::failure;
use std::env::FillError;
use std::fs::File;
use std::io::{ErrorKind, Read};
use std::rt::{Env, Files};
use std::{io, str};

// The most bytes of a path.
const MOST_PATH: usize = 4096;

// Which file could not be read, what was expected of it, and why it could not.
fn complain(rt: &impl Eprint, path: &str, why: io::Error) -> io::Result<()> {
    eprint!(rt; "join: expected a file of little-endian words, ")?;
    failure::tell(rt, path, why)
}

// Reads the file that an argument names, as far as the slice goes, and answers how many bytes came, or none where the file could not
// be read and that has been said: of an argument that can't be read itself, by what it stands for.
pub fn read(
    rt: &(impl Env + Files + Eprint),
    argument: usize,
    stands_for: &str,
    bytes: &mut [u8],
) -> io::Result<Option<usize>>
    ensures { IfOk result (λ came. IfSome came (λ count. count ≤ length bytes.new)) }
{
    let mut space = [0u8; MOST_PATH];
    // No `?` here or below: a failure that was told is not handed on.
    let path = match path_of(rt, argument, &mut space) {
        Ok(path) => path,
        Err(why) => return complain(rt, stands_for, why).map(|()| None),
    };
    match read_file(rt, path, bytes) {
        Ok(count) => Ok(Some(count)),
        Err(why) => complain(rt, path, why).map(|()| None),
    }
}

// The argument's text, which is put at the start of the slice.
fn path_of<'a>(rt: &impl Env, argument: usize, space: &'a mut [u8]) -> io::Result<&'a str> {
    let n = rt.arg(argument, space).map_err(unread)?;
    str::from_utf8(&space[..n]).map_err(|_| io::Error::new(
        ErrorKind::InvalidFilename,
        "Invalid UTF-8",
    ))
}

// Why an argument can't be read, in the words of the system's own failures.
fn unread(why: FillError) -> io::Error {
    match why {
        FillError::TooLong => io::Error::new(ErrorKind::InvalidFilename, "File name too long"),
        FillError::NotPresent => io::Error::new(ErrorKind::InvalidInput, "Invalid argument"),
    }
}

// Opens a file and reads it.
fn read_file(rt: &impl Files, path: &str, bytes: &mut [u8]) -> io::Result<usize>
    ensures { IfOk result (λ count. count ≤ length bytes.new) }
{
    let mut file = File::open(rt, path)?;
    fill(&mut file, bytes)
}

// Reads until the slice is full or the file ends. An error ends it too, and then one more read is expected to meet it again; if it
// does not, the file was cut short, and its batch is refused 8.
fn fill(file: &mut impl Read, bytes: &mut [u8]) -> io::Result<usize>
    ensures { IfOk result (λ count. count ≤ length bytes.new) }
{
    let count = input::read_full(file, bytes);
    let mut next = [0u8; 1];
    file.read(&mut next)?;
    Ok(count)
}
