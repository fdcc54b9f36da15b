// How wide the fields of a row are: the words that each takes in the answer, and the digits that each has at most. They come in
// this order.

// The sample number: its high part and its low part, printed as one.
pub const NUMBER_WORDS: usize = 2;

pub const NUMBER_DIGITS: usize = 15;

// Four verdicts.
pub const VERDICTS: usize = 4;

pub const VERDICT_WORDS: usize = 1;

pub const VERDICT_DIGITS: usize = 1;

// The flag.
pub const FLAG_WORDS: usize = 1;

pub const FLAG_DIGITS: usize = 1;

// How many fields these are.
pub const ROW_FIELDS: usize = 1 + VERDICTS + 1;
