// Floats and their patterns, NaNs included.

// The sign bit.
const SIGN: u32 = 0x80000000;

// Without their sign bits, the patterns of the NaNs are those above the infinity's.
const INFINITY: u32 = 0x7F800000;

// The float of a pattern. `f32::from_bits` takes no NaN's pattern, so those patterns give the NaN of a division.
pub fn of_pattern(bits: u32) -> f32 {
    if bits % SIGN > INFINITY {
        return 0.0 / 0.0;
    }
    f32::from_bits(bits)
}
