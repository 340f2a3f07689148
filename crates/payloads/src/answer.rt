// The payloads of answers, which have no checksum.
ghost use Rattle.std.specs.Prelude.{◌≡◌};
ghost use Rattle.payloads.specs.Payloads.{ack_in, nack_in};

use crate::check::{check_extent, check_version, only_octet};
use frames::cause::Cause;
use frames::frame::Answer;
use frames::refusal::Refusal;

// An Ack has no field.
pub fn read_ack(answer: Answer<'_>) -> Result<(), Refusal>
    ensures { result ≡ ack_in answer.entry.version answer.entry.payload.now }
{
    check_version(answer.version)?;
    check_extent(answer.payload, 0)
}

// A Nack names its cause.
pub fn read_nack(answer: Answer<'_>) -> Result<Cause, Refusal>
    ensures { result ≡ nack_in answer.entry.version answer.entry.payload.now }
{
    check_version(answer.version)?;
    Cause::new(only_octet(answer.payload)? >> 2)
}
