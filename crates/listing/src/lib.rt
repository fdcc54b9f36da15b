// The text that the listing program prints (document 01, 'A batch', and 02 (ii)): the bytes of a batch become words, the batch is
// judged, and its answer becomes lines.
#![tactic(auto)]

mod bytes;
mod decimal;
mod judging;
mod lines;

ghost use Rattle.std.specs.Prelude.{◌≡◌, ◌≤◌, length};
ghost use Rattle.refusal.specs.Outcome.{outcome_of};
ghost use Rattle.refusal.specs.Outcome.Outcome.{given};
ghost use Rattle.refusal.specs.Lent.{fitting, length_of, lent_after};
ghost use Rattle.batch.specs.Input.{ByteLimit};
ghost use Rattle.listing.specs.Decimal.{DecimalTruth};
ghost use Rattle.listing.specs.Listing.{list_text, TextFits};

use batch::{MOST_SAMPLES, input, widths};
use refusal::{Refusal, lent};

// The digits of the greatest count of samples.
const COUNT_DIGITS: usize = 3;

// The longest line of the count, and of a row: the most digits of each field, and the byte after it.
const COUNT_LINE: usize = COUNT_DIGITS + 1;

const ROW_LINE: usize = (widths::NUMBER_DIGITS + 1)
    + widths::VERDICTS * (widths::VERDICT_DIGITS + 1)
    + (widths::FLAG_DIGITS + 1);

// The bytes of the longest text.
pub const MOST_TEXT: usize = COUNT_LINE + MOST_SAMPLES * ROW_LINE;

// Writes the text of a batch, lent as bytes, to the start of `text`, and answers how long it is. Every text fits: that the
// answer is within the array follows from the other promises, and is said for the caller who lends that part of it.
pub fn text_of(bytes: &[u8], text: &mut [u8; MOST_TEXT]) -> usize
    ensures answer { result ≡ length (list_text bytes.now) }
    ensures lent { text.new ≡ lent_after (given (list_text bytes.now)) text.old }
    ensures within { result ≤ length text.new }
    ensures fits { TextFits }
{
    if !input::is_input(bytes) {
        return lines::put_refusal(text, Refusal::BatchLength);
    }
    judging::put_text(text, bytes)
}

// Writes the text of a batch, lent as bytes, to the start of any lent text. Where that is shorter, it is refused and left as
// it was: the text is made apart, and copied once nothing can be refused any more. The last three promises are that no text
// is longer than the longest, that digits say their number, and that the limit on bytes is document 02's.
pub fn list(bytes: &[u8], text: &mut [u8]) -> Result<usize, Refusal>
    ensures answer { outcome_of result ≡ length_of (fitting (length text.old) (given (list_text bytes.now))) }
    ensures lent { text.new ≡ lent_after (fitting (length text.old) (given (list_text bytes.now))) text.old }
    ensures fits { TextFits }
    ensures decimals { DecimalTruth }
    ensures limit { ByteLimit }
{
    let mut made = [0u8; MOST_TEXT];
    let length = text_of(bytes, &mut made);
    lent::lend(&made[..length], text)
}
