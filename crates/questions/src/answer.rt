// What an answer to each kind of question leads to.
ghost use Rattle.std.specs.Prelude.{◌≡◌};
ghost use Rattle.exchange.specs.Asking.{leads};
ghost use Rattle.questions.specs.Answering.{acceptance_leads, alignment_of, alignment_leads, alignment_cause};

use exchange::answer::Turn;
use frames::cause::Cause;
use frames::refusal::Refusal;
use reports::ending::Ending;

// A set of combinations, or the marks of them, can only be accepted or not: the answer is the cause of a Nack, none for an Ack.
pub(crate) fn accept(answer: &Result<Option<Cause>, Refusal>) -> Turn
    ensures { result ≡ leads acceptance_leads answer.now }
{
    match answer {
        Ok(None) => Turn::Onward,
        _ => Turn::Again,
    }
}

// A time alignment may be one that the other end never does, or does not do now.
#[derive(Clone, Copy, PartialEq, Eq, Debug)]
pub enum AlignmentAnswer {
    Aligned,
    NotSupported,
    NotPossible,
    // for another cause
    Declined(u8),
}

// Any octet may be asked about: a cause in a frame has six bits of it.
impl From<Option<u8>> for AlignmentAnswer {
    fn from(cause: Option<u8>) -> AlignmentAnswer
        ensures { result ≡ alignment_of cause }
    {
        match cause {
            None => AlignmentAnswer::Aligned,
            Some(other) => match Cause::within(other) {
                Some(Cause::ALIGNMENT_NOT_SUPPORTED) => AlignmentAnswer::NotSupported,
                Some(Cause::ALIGNMENT_NOT_POSSIBLE) => AlignmentAnswer::NotPossible,
                _ => AlignmentAnswer::Declined(other),
            },
        }
    }
}

impl AlignmentAnswer {
    pub fn turn(self) -> Turn
        ensures { result ≡ alignment_leads self }
    {
        match self {
            AlignmentAnswer::Aligned => Turn::Onward,
            AlignmentAnswer::NotSupported => Turn::Stop(Ending::AlignmentNotSupported),
            AlignmentAnswer::NotPossible => Turn::Stop(Ending::AlignmentNotPossible),
            AlignmentAnswer::Declined(_) => Turn::Again,
        }
    }

    // The cause of a Nack, none for an Ack.
    pub fn cause(self) -> Option<u8>
        ensures { result ≡ alignment_cause self }
    {
        match self {
            AlignmentAnswer::Aligned => None,
            AlignmentAnswer::NotSupported => Some(Cause::ALIGNMENT_NOT_SUPPORTED.value()),
            AlignmentAnswer::NotPossible => Some(Cause::ALIGNMENT_NOT_POSSIBLE.value()),
            AlignmentAnswer::Declined(other) => Some(other),
        }
    }
}
