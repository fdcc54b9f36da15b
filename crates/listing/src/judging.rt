// A batch judged, and the text of its answer: each `put` writes to the start of `text`, and answers how long the text is.
ghost use Rattle.std.specs.Prelude.{◌≡◌, ◌≤◌, length};
ghost use Rattle.refusal.specs.Outcome.Outcome.{given};
ghost use Rattle.refusal.specs.Lent.{lent_after};
ghost use Rattle.batch.specs.Rows.{batch_answer};
ghost use Rattle.words.specs.Words.{words_of};
ghost use Rattle.batch.specs.Input.{most_bytes};
ghost use Rattle.listing.specs.Listing.{text_of, most_text};

use crate::lines;
use batch::input::MOST_WORDS;

// The text of a batch lent as bytes.
pub fn put_text(text: &mut [u8], bytes: &[u8]) -> usize
    requires room { most_text ≤ length text.old }
    requires few_bytes { length bytes.now ≤ most_bytes }
    ensures value { result ≡ length (text_of (batch_answer (words_of bytes.now))) }
    ensures text_after { text.new ≡ lent_after (given (text_of (batch_answer (words_of bytes.now)))) text.old }
{
    // No heap: room for the longest batch, of which a slice goes on.
    let mut words = [0u32; MOST_WORDS];
    let count = words::unpack(bytes, &mut words);
    put_judged(text, &words[0..count])
}

// The text of a batch lent as words.
fn put_judged(text: &mut [u8], words: &[u32]) -> usize
    requires { most_text ≤ length text.old }
    ensures value { result ≡ length (text_of (batch_answer words.now)) }
    ensures text_after { text.new ≡ lent_after (given (text_of (batch_answer words.now))) text.old }
{
    // As long as the longest answer, so that none is refused for want of room.
    let mut answer = [0u32; batch::MOST_ANSWER];
    // By `match`: a refusal is a text of its own, and nothing is passed on.
    match batch::judge_batch(words, &mut answer) {
        Ok(size) => lines::put_listing(text, &answer[..size]),
        Err(why) => lines::put_refusal(text, why),
    }
}
