// The judge, the docket, control charts, batches and their joining for programs in C, which see a slice as a pointer and a length
// (include/peltquarry.h). Each call returns 0 where it did what was asked, else the number of the documents' refusal, and then
// the words lent to it are as they were. An answer goes into the first words of the lent output.
#![tactic(auto)]

mod codes;
mod docket_words;
mod offering;
mod reading_words;
mod verdict_words;

ghost use Rattle.std.specs.Prelude.{◌≡◌, length};
ghost use Rattle.refusal.specs.Lent.{fitting, lent_after};
ghost use Rattle.chart.specs.Charts.{signals_of};
ghost use Rattle.refusal.specs.Outcome.Outcome.{given};
ghost use Rattle.batch.specs.Rows.{batch_answer};
ghost use Rattle.listing.specs.Listing.{list_text};
ghost use Rattle.joining.specs.Joins.{joined_of};
ghost use Rattle.analyser.specs.Codes.{code_of, size_after};
ghost use Rattle.analyser.specs.Analyses.{judged_words, analysed_words};
ghost use Rattle.analyser.specs.LentDockets.{FreshLent, offered_words, LentLaws};

use reading::Analysed;
use refusal::lent::lend;

// Judges a record: the numbers of its four verdicts.
#[unsafe(no_mangle)]
pub extern "C" fn peltquarry_judge(words: &[u32], verdicts: &mut [u32]) -> u32
    ensures code { result ≡ code_of (fitting (length verdicts.old) (judged_words words.now)) }
    ensures lent { verdicts.new ≡ lent_after (fitting (length verdicts.old) (judged_words words.now)) verdicts.old }
{
    codes::of_written(verdict_words::lend_verdicts(words, verdicts))
}

// The two words of a reading in a record, from the analyser's value and quantification limit.
#[unsafe(no_mangle)]
pub extern "C" fn peltquarry_reading(value: f32, limit: f32, words: &mut [u32]) -> u32
    ensures code { result ≡ code_of (fitting (length words.old) (analysed_words value limit)) }
    ensures lent { words.new ≡ lent_after (fitting (length words.old) (analysed_words value limit)) words.old }
{
    let analysed = Analysed { value, limit };
    codes::of_written(reading_words::lend_reading(analysed, words))
}

// A fresh docket, as words. Its record is left open.
#[unsafe(no_mangle)]
pub extern "C" fn peltquarry_fresh(docket: &mut [u32]) -> u32
    ensures fresh { FreshLent result docket.old docket.new }
    ensures laws { LentLaws }
{
    let answer = docket_words::words_of(docket::fresh());
    codes::of_written(lend(&answer, docket))
}

// Offers a record to a docket lent as words. Where it is taken, they become those of the docket after it.
#[unsafe(no_mangle)]
pub extern "C" fn peltquarry_offer(docket: &mut [u32], words: &[u32]) -> u32
    ensures code { result ≡ code_of (offered_words docket.old words.now) }
    ensures lent { docket.new ≡ lent_after (offered_words docket.old words.now) docket.old }
    ensures laws { LentLaws }
{
    codes::of_written(offering::offer(docket, words))
}

// Reads a control chart: a signal word for each later value.
#[unsafe(no_mangle)]
pub extern "C" fn peltquarry_signals(setup: &[u32], later: &[u32], signals: &mut [u32]) -> u32
    ensures code { result ≡ code_of (fitting (length signals.old) (signals_of setup.now later.now)) }
    ensures lent { signals.new ≡ lent_after (fitting (length signals.old) (signals_of setup.now later.now)) signals.old }
{
    codes::of_written(chart::signals(setup, later, signals))
}

// Judges a batch: the sample count, then a row a sample.
#[unsafe(no_mangle)]
pub extern "C" fn peltquarry_batch(words: &[u32], answer: &mut [u32]) -> u32
    ensures code { result ≡ code_of (fitting (length answer.old) (batch_answer words.now)) }
    ensures lent { answer.new ≡ lent_after (fitting (length answer.old) (batch_answer words.now)) answer.old }
{
    codes::of_written(batch::judge_batch(words, answer))
}

// Joins two batches: the joined batch, and how many words it has into `size`.
#[unsafe(no_mangle)]
pub extern "C" fn peltquarry_join(
    first: &[u32],
    second: &[u32],
    joined: &mut [u32],
    size: &mut usize,
) -> u32
    ensures code { result ≡ code_of (fitting (length joined.old) (joined_of first.now second.now)) }
    ensures lent { joined.new ≡ lent_after (fitting (length joined.old) (joined_of first.now second.now)) joined.old }
    ensures size { size.new ≡ size_after (fitting (length joined.old) (joined_of first.now second.now)) size.old }
{
    codes::with_size(joining::join(first, second, joined), size)
}

// The text of the listing of a batch lent as bytes; its length into `size`.
#[unsafe(no_mangle)]
pub extern "C" fn peltquarry_list(bytes: &[u8], text: &mut [u8], size: &mut usize) -> u32
    ensures code { result ≡ code_of (fitting (length text.old) (given (list_text bytes.now))) }
    ensures lent { text.new ≡ lent_after (fitting (length text.old) (given (list_text bytes.now))) text.old }
    ensures size { size.new ≡ size_after (fitting (length text.old) (given (list_text bytes.now))) size.old }
{
    codes::with_size(listing::list(bytes, text), size)
}
