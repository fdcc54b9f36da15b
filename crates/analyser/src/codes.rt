// What a call returns to a program in C.
ghost use Rattle.std.specs.Prelude.{◌≡◌};
ghost use Rattle.refusal.specs.Outcome.{outcome_of};
ghost use Rattle.analyser.specs.Codes.{code_of, told_size};

use refusal::Refusal;

// Of a call that writes to a lent slice: 0, or the number of the refusal.
pub fn of_written(written: Result<usize, Refusal>) -> u32
    ensures { result ≡ code_of (outcome_of written) }
{
    match written {
        Ok(_) => 0,
        Err(why) => why.number(),
    }
}

// The same, and how long the answer is into `size`, which a refusal leaves as it was.
pub fn with_size(written: Result<usize, Refusal>, size: &mut usize) -> u32
    ensures code { result ≡ code_of (outcome_of written) }
    ensures size { size.new ≡ told_size (outcome_of written) size.old }
{
    if let Ok(n) = written {
        *size = n;
    }
    of_written(written)
}
