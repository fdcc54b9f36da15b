// Which bytes hold a batch: whole words, and no more of them than the longest batch has.
ghost use Rattle.std.specs.Prelude.{◌≡◌};
ghost use Rattle.batch.specs.Input.{is_input};

use crate::MOST_SAMPLES;
use chart_section::{MOST_CHART, MOST_CHARTS};
use words::WORD_BYTES;

// The words of a batch that has the most of all: two sections, each after its count, of charts and of records.
pub const MOST_WORDS: usize = (1 + MOST_CHARTS * MOST_CHART) + (1 + MOST_SAMPLES * record::WORDS);

// The most bytes that hold a batch.
pub const MOST_BYTES: usize = WORD_BYTES * MOST_WORDS;

#[tactic(auto, unfolding(crate::specs::Input::is_input))]
pub fn is_input(bytes: &[u8]) -> bool
    ensures { result ≡ is_input bytes.now }
{
    bytes.len() % WORD_BYTES == 0 && bytes.len() <= MOST_BYTES
}
