// Readings of the analyser (document 01, 'A reading', and 02 (i), (vi) and (vii)): made from a value and its quantification limit,
// or from the two words of a record; written back as words; and converted to an amount in tenths of a µg/L, and to the range
// of amounts that a check takes it for.
#![tactic(auto)]

mod amounts;
mod marks;
mod ranges;
mod rounding;

ghost use Rattle.std.specs.Prelude.{◌≡◌};
ghost use Rattle.refusal.specs.Outcome.{outcome_of};
ghost use Rattle.reading.specs.Answers.{amount_outcome};
ghost use Rattle.reading.specs.Readings.{analysed_of, reading_of, words_of, WordLaws};
ghost use Rattle.reading.specs.Amounts.{amount_of, AmountLaws};
ghost use Rattle.reading.specs.Analytes.{present, analyte_from, range_of, range_in, AmountRangeLaws};
ghost use Rattle.reading.specs.Finer.{FinerLaws};

use refusal::Refusal;

// The greatest amount, and the scale of amounts, for a crate that says how great sums or limits are.
pub use rounding::{MOST_MASS, PER_MILLIGRAM};

// What the analyser holds for a reading, in mg/L: the form that document 01 names, a struct with two f32 fields.
#[derive(Clone, Copy, Debug, PartialEq)]
pub struct Analysed {
    pub value: f32,
    pub limit: f32,
}

// A reading, in mg/L: missing, measured with its float, or below with its quantification limit (document 01's enum).
#[derive(Clone, Copy, Debug, PartialEq)]
pub enum Reading {
    Missing,
    Measured(f32),
    Below(f32),
}

// A reading as a record holds it: a mark, and the bits of its float.
#[derive(Clone, Copy, Debug, PartialEq, Eq)]
pub struct Words {
    pub mark: u32,
    pub bits: u32,
}

// A mass concentration in tenths of a µg/L, held apart from charge and conductivity by its type.
#[derive(Clone, Copy, Debug, PartialEq, Eq)]
pub struct Mass(pub u64);

// A reading of a record with its amount, 0 where it is missing, and the amount of the limit that it is below, 0 where it is
// below none.
#[derive(Clone, Copy, Debug, PartialEq)]
pub struct Analyte {
    pub reading: Reading,
    pub mass: Mass,
    pub limit: Mass,
}

// From the least to the greatest amount that a check takes a reading for.
#[derive(Clone, Copy, Debug, PartialEq, Eq)]
pub struct MassRange {
    pub least: Mass,
    pub most: Mass,
}

impl Analysed {
    // Below where the value is under its limit, else measured. Both are tested always.
    #[tactic(auto, unfolding(crate::specs::Readings::analysed_of))]
    pub fn to_reading(self) -> Result<Reading, Refusal>
        ensures { outcome_of result ≡ analysed_of self.value self.limit }
    {
        if !ranges::is_value(self.value) {
            return Err(Refusal::Reading);
        }
        if !ranges::is_limit(self.limit) {
            return Err(Refusal::Reading);
        }
        if self.value < self.limit {
            return Ok(Reading::Below(self.limit));
        }
        Ok(Reading::Measured(self.value))
    }
}

impl Reading {
    // The reading that two words of a record hold.
    #[tactic(auto, using(crate::proofs::WordProofs::word_laws), unfolding(crate::specs::Readings::reading_of, crate::specs::Readings::missing_from, crate::specs::Readings::measured_from, crate::specs::Readings::below_from))]
    // By two words and no `TryFrom<Words>`: a record has them as words.
    pub fn from_words(mark: u32, bits: u32) -> Result<Reading, Refusal>
        ensures answer { outcome_of result ≡ reading_of mark bits }
        ensures laws { WordLaws }
    {
        match mark {
            marks::MISSING if bits == 0 => Ok(Reading::Missing),
            marks::MEASURED if ranges::is_value_pattern(bits) => {
                Ok(Reading::Measured(f32::from_bits(bits)))
            }
            marks::BELOW if ranges::is_limit_pattern(bits) => {
                Ok(Reading::Below(f32::from_bits(bits)))
            }
            _ => Err(Refusal::Reading),
        }
    }

    // The two words of a reading: what `from_words` reads as this reading.
    #[tactic(auto, using(crate::proofs::WordProofs::word_laws), unfolding(crate::specs::Readings::words_of))]
    pub fn words(self) -> Result<Words, Refusal>
        ensures answer { outcome_of result ≡ words_of self }
        ensures laws { WordLaws }
    {
        if !ranges::is_in_range(self) {
            return Err(Refusal::Reading);
        }
        let (mark, bits) = match self {
            Reading::Missing => (marks::MISSING, 0),
            Reading::Measured(x) => (marks::MEASURED, x.to_bits()),
            Reading::Below(x) => (marks::BELOW, x.to_bits()),
        };
        Ok(Words { mark, bits })
    }

    // The amount of a reading in tenths of a µg/L; of one below its limit, that of half the limit. A reading made by hand may
    // hold any float, so its range is tested first.
    pub fn amount(self) -> Result<Option<Mass>, Refusal>
        ensures answer { amount_outcome result ≡ amount_of self }
        ensures laws { AmountLaws }
    {
        if !ranges::is_in_range(self) {
            return Err(Refusal::Reading);
        }
        let analyte = amounts::of_reading(self);
        Ok(analyte.is_present().then_some(analyte.mass))
    }
}

impl Analyte {
    // The reading that two words of a record hold, with its amounts. What was read is in range, so that its float is
    // tested once.
    #[tactic(auto, unfolding(crate::specs::Analytes::analyte_from, crate::specs::Analytes::with_amount))]
    pub fn from_words(mark: u32, bits: u32) -> Result<Analyte, Refusal>
        ensures { outcome_of result ≡ analyte_from mark bits }
    {
        let reading = Reading::from_words(mark, bits)?;
        Ok(amounts::of_reading(reading))
    }

    pub fn is_present(self) -> bool
        ensures { result ≡ present self.reading }
    {
        !matches!(self.reading, Reading::Missing)
    }

    // A reading below its limit stands for every amount up to its limit's, any other for its one amount. The last promise is of
    // a finer reading's range (document 02 (vii)).
    #[tactic(auto, using(crate::proofs::FinerProofs::range_promises), unfolding(crate::specs::Analytes::range_of))]
    pub fn range(self) -> MassRange
        ensures answer { range_in result ≡ range_of self }
        ensures laws { AmountRangeLaws }
        ensures finer { FinerLaws }
    {
        match self.reading {
            Reading::Missing | Reading::Measured(_) => MassRange {
                least: self.mass,
                most: self.mass,
            },
            Reading::Below(_) => MassRange {
                least: Mass(0),
                most: self.limit,
            },
        }
    }
}
