// Bytes into a text.
ghost use Rattle.std.specs.Prelude.{◌≡◌, ◌++◌, ◌≤◌, length, drop};

// Copies bytes to the start of a text that has room for them, and answers how many these are.
pub fn put(text: &mut [u8], bytes: &[u8]) -> usize
    requires { length bytes.now ≤ length text.old }
    ensures value { result ≡ length bytes.now }
    ensures text_after { text.new ≡ bytes.now ++ drop (length bytes.now) text.old }
{
    let size = bytes.len();
    text[..size].copy_from_slice(bytes);
    size
}
