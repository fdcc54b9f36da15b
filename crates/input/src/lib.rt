// Words from a reader, standard input or another: four bytes each, least byte first. And bytes as they come.
#![tactic(auto)]

ghost use Rattle.std.specs.Prelude.{◌≤◌, length};
ghost use Rattle.input.specs.Input.{most_bytes, Came};

use std::io::Read;
use words::WORD_BYTES;

// The most words that one call reads.
pub const MOST_WORDS: usize = 1024;

const MOST_BYTES: usize = MOST_WORDS * WORD_BYTES;

// What came: so many bytes, and so many whole words.
#[derive(Clone, Copy, Debug, PartialEq, Eq)]
// No `Option`: that no byte came says that the input has ended, as it does of a `Read`.
pub struct Got {
    pub bytes: usize,
    pub words: usize,
}

// Fills `words`, or the first MOST_WORDS of them, as far as the input goes. That the whole words that came are within the slice
// follows from the first promise, and is said for the caller who lends that part of it.
pub fn read<R: Read>(input: &mut R, words: &mut [u32]) -> Got
    ensures came { Came words.old words.new result }
    ensures inside { result.words ≤ length words.new }
{
    let wanted = words.len().min(MOST_WORDS) * WORD_BYTES;
    // No heap: room for the most words of a call, of which a slice goes on.
    let mut buffer = [0u8; MOST_BYTES];
    fill(input, &mut buffer[..wanted], words)
}

// The same through bytes that are lent, which are no more than the words have. By itself, since a proof knows of lent bytes that
// each is one, and not of an array that was lent to a call.
fn fill<R: Read>(input: &mut R, bytes: &mut [u8], words: &mut [u32]) -> Got
    requires { length bytes.old ≤ most_bytes words.old }
    ensures came { Came words.old words.new result }
    ensures inside { result.words ≤ length words.new }
{
    let got = read_full(input, bytes);
    let whole = words::unpack(&bytes[..got], words);
    Got {
        bytes: got,
        words: whole,
    }
}

// Reads until the bytes are full or the input ends, and answers how many came. A read that fails ends the input too.
pub fn read_full<R: Read>(input: &mut R, bytes: &mut [u8]) -> usize
    ensures inside { result ≤ length bytes.new }
{
    let mut done = 0;
    // A count, and no `for`: how many bytes a turn brings is the reader's to say.
    while done < bytes.len() {
        let came = input.read(&mut bytes[done..]).unwrap_or(0);
        if came == 0 {
            break;
        }
        done += came;
    }
    done
}

#[cfg(test)]
mod tests {
    use super::*;
    use std::io;
    use std::io::ErrorKind;

    // Gives its bytes one at a time, and then fails.
    #[derive(Drop)]
    struct Failing<'a> {
        bytes: &'a [u8],
    }

    impl<'a> Read for Failing<'a> {
        fn read(&mut self, buf: &mut [u8]) -> io::Result<usize> {
            if buf.is_empty() {
                return Ok(0);
            }
            let Some((first, rest)) = self.bytes.split_first() else {
                return Err(io::Error::from(ErrorKind::BrokenPipe));
            };
            buf[0] = *first;
            self.bytes = rest;
            Ok(1)
        }
    }

    // A read that brings less than was asked for ends nothing; one that fails ends the input.
    #[test]
    fn reads_on_until_a_read_fails(rt: HostRuntime) {
        let mut reader = Failing {
            bytes: &[1, 2, 3, 4, 5, 6],
        };
        let mut words = [9u32; 3];
        let got = read(&mut reader, &mut words);
        assert_eq!(rt; got.bytes, 6);
        assert_eq!(rt; got.words, 1);
        assert_eq!(rt; words, [0x04030201, 9, 9]);
        assert_eq!(rt; read(&mut reader, &mut words).bytes, 0);
    }
}
