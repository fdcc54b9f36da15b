// Lines of text: each `put` writes to the start of a text, and answers how many bytes it wrote.
ghost use Rattle.std.specs.Prelude.{◌++◌, ◌∷◌, [], ◌≡◌, ◌+◌, ◌*◌, ◌≤◌, length, get_or, drop};
ghost use Rattle.refusal.specs.Numbers.{number_of};
ghost use Rattle.refusal.specs.Outcome.Outcome.{given};
ghost use Rattle.refusal.specs.Lent.{lent_after};
ghost use Rattle.batch.specs.Rows.{row_words, row_fields};
ghost use Rattle.listing.specs.Decimal.{decimal};
ghost use Rattle.listing.specs.Listing.{ending, line, listing_text, refused_text};

use crate::{bytes, decimal};
use batch::ROW_WORDS;
use batch::widths::ROW_FIELDS;
use record::number;
use refusal::Refusal;

// The text of a batch's answer: the count on the first line, then a row a line.
// Each `put` promises the pair: the text is its caller's, and no value goes out that could carry it.
pub fn put_listing(text: &mut [u8], answer: &[u32]) -> usize
    requires rows_there { length answer.now ≡ 1 + row_words * get_or answer.now 0 0 }
    requires room { length (listing_text answer.now) ≤ length text.old }
    ensures value { result ≡ length (listing_text answer.now) }
    ensures text_after { text.new ≡ lent_after (given (listing_text answer.now)) text.old }
{
    let mut size = put_line(text, &[u64::from(answer[0])]);
    let (rows, _) = answer[1..].as_chunks::<ROW_WORDS>();
    for row in rows {
        size += put_line(&mut text[size..], &fields(row));
    }
    size
}

// The text of a refusal.
pub fn put_refusal(text: &mut [u8], why: Refusal) -> usize
    requires { length (refused_text (number_of why)) ≤ length text.old }
    ensures value { result ≡ length (refused_text (number_of why)) }
    ensures text_after { text.new ≡ lent_after (given (refused_text (number_of why))) text.old }
{
    // By hand, not by `write!` of `why`: of what that leaves in a lent slice the library promises nothing.
    let size = bytes::put(text, b"refused ");
    size + put_line(&mut text[size..], &[u64::from(why.number())])
}

// The fields of a row as they are printed: the whole number, then a word each.
fn fields(row: &[u32; ROW_WORDS]) -> [u64; ROW_FIELDS]
    ensures { result ≡ row_fields row.now }
{
    let [high, low, balance, conductivity, ratio, nitrogen, flag] = *row;
    [
        number::whole(high, low),
        u64::from(balance),
        u64::from(conductivity),
        u64::from(ratio),
        u64::from(nitrogen),
        u64::from(flag),
    ]
}

// A line of fields.
fn put_line(text: &mut [u8], fields: &[u64]) -> usize
    requires { length (line fields.now) ≤ length text.old }
    ensures value { result ≡ length (line fields.now) }
    ensures text_after { text.new ≡ lent_after (given (line fields.now)) text.old }
{
    let mut size = 0;
    for (i, field) in fields.iter().enumerate() {
        size += put_field(&mut text[size..], *field, fields.len() - 1 - i);
    }
    size
}

// A field, and the byte that ends it, by how many fields come after it on its line.
// A count and no enum, since the definition of a field's end goes by it.
fn put_field(text: &mut [u8], n: u64, after: usize) -> usize
    requires { length (decimal n ++ (ending after ∷ [])) ≤ length text.old }
    ensures value { result ≡ length (decimal n ++ (ending after ∷ [])) }
    ensures text_after { text.new ≡ lent_after (given (decimal n ++ (ending after ∷ []))) text.old }
{
    let size = decimal::put_number(text, n);
    text[size] = ending(after);
    size + 1
}

// A space where others come after it, else the newline.
fn ending(after: usize) -> u8
    ensures { result ≡ ending after }
{
    if after == 0 { b'\n' } else { b' ' }
}
