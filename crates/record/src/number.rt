// A sample's number (document 02 (ii)): one value, put together from its two words and taken apart into them here alone.
ghost use Rattle.std.specs.Prelude.{◌≡◌};
ghost use Rattle.record.specs.Number.{whole_number, high_part, low_part, NumberLaws};

// How many values a word of 32 bits has.
const WORD_VALUES: u64 = 4294967296;

// The two words of a number.
#[derive(Clone, Copy, Debug, PartialEq, Eq)]
pub struct Parts {
    pub high: u32,
    pub low: u32,
}

// The number that two words make, any two: none is too great for 64 bits. The second promise says that no other two words
// make it.
// By two words and no `Parts`: a record has them as words.
pub fn whole(high: u32, low: u32) -> u64
    ensures answer { result ≡ whole_number high low }
    ensures laws { NumberLaws }
{
    u64::from(high) * WORD_VALUES + u64::from(low)
}

// The two words that make a number.
pub fn parts_of(number: u64) -> Parts
    ensures { (result.high ≡ high_part number) × (result.low ≡ low_part number) }
{
    Parts {
        high: (number / WORD_VALUES) as u32,
        low: (number % WORD_VALUES) as u32,
    }
}
