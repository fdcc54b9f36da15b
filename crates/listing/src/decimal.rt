// A number in base ten, in ASCII.
ghost use Rattle.std.specs.Prelude.{◌≡◌, ◌++◌, ◌≤◌, length, drop};
ghost use Rattle.listing.specs.Decimal.{decimal};

use crate::bytes;
use itoa::Buffer;

// Writes a number to the start of a text, and answers how many digits it has.
pub fn put_number(text: &mut [u8], n: u64) -> usize
    requires { length (decimal n) ≤ length text.old }
    ensures value { result ≡ length (decimal n) }
    ensures text_after { text.new ≡ decimal n ++ drop (length (decimal n)) text.old }
{
    let mut buffer = Buffer::new();
    bytes::put(text, buffer.format(n).as_bytes())
}
