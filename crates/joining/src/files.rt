// Two files joined, each the bytes of a batch's words. A file's bytes are tested in its turn, before its words.
ghost use Rattle.std.specs.Prelude.{◌≡◌, length};
ghost use Rattle.refusal.specs.Outcome.{outcome_of};
ghost use Rattle.refusal.specs.Outcome.Outcome.{given};
ghost use Rattle.refusal.specs.Numbers.{number_of};
ghost use Rattle.refusal.specs.Lent.{fitting, lent_after, length_of};
ghost use Rattle.words.specs.Words.{bytes_of};
ghost use Rattle.batch.specs.Batches.{batch_of, test_of};
ghost use Rattle.joining.specs.Joins.{joined_by, joined_of};
ghost use Rattle.joining.specs.Files.{file_of, as_bytes, joined_file, JoinsFiles};
ghost use Rattle.joining.specs.Steps.{number_after};

use crate::join;
use batch::input;
use batch::input::MOST_WORDS;
use refusal::Refusal;
use words::WORD_BYTES;

// Joins two files, and writes the joined one to the start of the lent bytes. After a refusal these are as they were. The third
// promise is that the joined file is read as the joined batch.
// The two files have a function each, since each refuses its bytes in its own way and in its turn.
pub fn join_bytes(first: &[u8], second: &[u8], out: &mut [u8]) -> Result<usize, Refusal>
    ensures answer { outcome_of result ≡ length_of (fitting (length out.old) (joined_file first.now second.now)) }
    ensures lent { out.new ≡ lent_after (fitting (length out.old) (joined_file first.now second.now)) out.old }
    ensures joined { JoinsFiles }
{
    if !input::is_input(first) {
        return Err(Refusal::BatchLength);
    }
    // No heap: room for the longest batch, of which a slice goes on.
    let mut words = [0u32; MOST_WORDS];
    let count = words::unpack(first, &mut words);
    join_second(&words[0..count], second, out)
}

// The same, the first batch lent as words.
fn join_second(first: &[u32], second: &[u8], out: &mut [u8]) -> Result<usize, Refusal>
    ensures answer { outcome_of result ≡ length_of (fitting (length out.old) (as_bytes (joined_by (batch_of first.now) (file_of second.now)))) }
    ensures lent { out.new ≡ lent_after (fitting (length out.old) (as_bytes (joined_by (batch_of first.now) (file_of second.now)))) out.old }
{
    if !input::is_input(second) {
        return Err(refusal_after(first));
    }
    let mut words = [0u32; MOST_WORDS];
    let count = words::unpack(second, &mut words);
    join_words(first, &words[0..count], out)
}

// The refusal where the second file's bytes are no batch's: the first batch's own comes before it.
// By `match`: both ways give a refusal, and there is no value to pass on.
fn refusal_after(first: &[u32]) -> Refusal
    ensures { number_of result ≡ number_after (test_of first.now) }
{
    match batch::test(first) {
        Ok(()) => Refusal::BatchLength,
        Err(why) => why,
    }
}

// The same, both batches lent as words. The buffer has room for every batch.
fn join_words(first: &[u32], second: &[u32], out: &mut [u8]) -> Result<usize, Refusal>
    ensures answer { outcome_of result ≡ length_of (fitting (length out.old) (as_bytes (joined_of first.now second.now))) }
    ensures lent { out.new ≡ lent_after (fitting (length out.old) (as_bytes (joined_of first.now second.now))) out.old }
{
    let mut joined = [0u32; MOST_WORDS];
    let size = join(first, second, &mut joined)?;
    lend(&joined[0..size], out)
}

// Writes the bytes of words to the start of the lent ones, where these are enough.
// Not `refusal::lent`'s: the bytes are made of the words on the way, and nothing is copied.
fn lend(words: &[u32], out: &mut [u8]) -> Result<usize, Refusal>
    ensures answer { outcome_of result ≡ length_of (fitting (length out.old) (given (bytes_of words.now))) }
    ensures lent { out.new ≡ lent_after (fitting (length out.old) (given (bytes_of words.now))) out.old }
{
    if out.len() < WORD_BYTES * words.len() {
        return Err(Refusal::OutputLength);
    }
    Ok(words::pack(words, out))
}
