// Slices of words of 32 bits: made of bytes, made bytes again, and put into others. Each call goes as far as there is room, so
// that it takes every slice.
#![tactic(auto)]

ghost use Rattle.std.specs.Prelude.{◌≡◌, ◌≤◌, length};
ghost use Rattle.words.specs.Words.{words_of, bytes_of, BytesHoldWords};
ghost use Rattle.words.specs.Placing.{within, placed_within};

// The bytes of a word.
pub const WORD_BYTES: usize = 4;

// Puts the words that bytes hold at the start of `words`, and answers how many it put. That these are within the slice
// follows from the other promises, and is said for the caller who lends that part of it.
pub fn unpack(bytes: &[u8], words: &mut [u32]) -> usize
    ensures answer { result ≡ length (within words.old 0 (words_of bytes.now)) }
    ensures lent { words.new ≡ placed_within words.old 0 (words_of bytes.now) }
    ensures inside { result ≤ length words.new }
{
    let (fours, _) = bytes.as_chunks::<WORD_BYTES>();
    let count = fours.len().min(words.len());
    // By index, since of words that a zip lends a proof knows nothing once they are given back.
    for (i, word) in words[..count].iter_mut().enumerate() {
        *word = u32::from_le_bytes(fours[i]);
    }
    count
}

// Puts the bytes that hold words at the start of `bytes`, and answers how many it put. The last promise is that words are
// read from their bytes again.
pub fn pack(words: &[u32], bytes: &mut [u8]) -> usize
    ensures answer { result ≡ length (within bytes.old 0 (bytes_of words.now)) }
    ensures lent { bytes.new ≡ placed_within bytes.old 0 (bytes_of words.now) }
    ensures back { BytesHoldWords }
{
    let count = (WORD_BYTES * words.len()).min(bytes.len());
    for (i, byte) in bytes[..count].iter_mut().enumerate() {
        *byte = words[i / WORD_BYTES].to_le_bytes()[i % WORD_BYTES];
    }
    count
}

// Puts words into a slice, from a place on.
pub fn place(words: &[u32], into: &mut [u32], at: usize)
    ensures lent { into.new ≡ placed_within into.old at words.now }
{
    let at = at.min(into.len());
    let count = words.len().min(into.len() - at);
    // Word by word: where the compiler can't tell that the two slices are apart, `copy_from_slice` becomes a call of `memmove`,
    // which the firmware would have to bring.
    for (i, word) in into[at..at + count].iter_mut().enumerate() {
        *word = words[i];
    }
}
