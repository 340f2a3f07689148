// An answer: what it says, and what it makes of an exchange.
ghost use Rattle.std.specs.Prelude.{◌≡◌};
ghost use Rattle.frames.specs.Contents.{reply};
ghost use Rattle.exchange.specs.Answers.{cause_in};

use frames::cause::Cause;
use frames::frame::{AckNack, Answer};
use frames::refusal::Refusal;
use payloads::answer::{read_ack, read_nack};
use reports::ending::Ending;

#[derive(Clone, Copy, PartialEq, Eq, Debug)]
pub enum Turn {
    // to the next frame, or to the end of what was asked
    Onward,
    // the present frame is repeated
    Again,
    Stop(Ending),
}

// The cause of a Nack, none for an Ack: its version and its extent are checked.
pub fn read_cause(answer: Answer<'_>) -> Result<Option<Cause>, Refusal>
    ensures { result ≡ cause_in (reply answer.entry) }
{
    match answer.ack_nack {
        AckNack::Ack => {
            read_ack(answer)?;
            Ok(None)
        }
        AckNack::Nack => Ok(Some(read_nack(answer)?)),
    }
}
