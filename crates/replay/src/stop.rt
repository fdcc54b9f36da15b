// Why a case has no answer.
use refusal::Refusal;
use std::io;

#[derive(Debug, Drop)]
pub enum Stop {
    // The call refuses, which is a line of its own; the next case is answered.
    Refused(Refusal),
    // The input is at its end.
    Ended,
    // The words of a case are not what its call takes, or the input ends in the middle of them.
    Malformed,
    // A line could not be printed.
    Failed(io::Error),
}

impl From<Refusal> for Stop {
    fn from(why: Refusal) -> Stop {
        Stop::Refused(why)
    }
}

impl From<io::Error> for Stop {
    fn from(why: io::Error) -> Stop {
        Stop::Failed(why)
    }
}
