// The kinds and the classes of measured conductivity that the checks go by, and what a difference is taken in percent of.

// Kinds that a check names, in document 01's order: open field samples, the last of those with a sodium/chloride ratio, and runoff.
// Numbers and no enum: a tested record promises its kind as the number that its word is.
pub const WET_ONLY: u32 = 1;

pub const BULK: u32 = 2;

pub const STEMFLOW: u32 = 4;

pub const RUNOFF: u32 = 5;

// A low conductivity is up to 10.0 µS/cm, a medium one up to 20.0, in tenths.
pub const LOW_CONDUCTIVITY: u32 = 100;

pub const MEDIUM_CONDUCTIVITY: u32 = 200;

// Percent of a value; and of the mean of two, by their sum.
pub const PERCENT: u64 = 100;

pub const PERCENT_OF_MEAN: u64 = 200;
