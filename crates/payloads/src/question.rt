// The payloads of questions other than initialisation.
ghost use Rattle.std.specs.Prelude.{◌≡◌};
ghost use Rattle.payloads.specs.Payloads.{marks_in, rate_in, alignment_in, event_in};

use crate::check::{check_extent, check_question, only_octet};
use crate::event::ErrorEvent;
use crate::marks::read_marks;
use frames::cause::Cause;
use frames::distance::Distance;
use frames::extent::octets_for;
use frames::frame::Question;
use frames::mask::RateMask;
use frames::refusal::Refusal;
use frames::shift::Shift;

// A rate question: how many marks follow, and the marks.
pub fn read_rate(question: Question<'_>) -> Result<RateMask, Refusal>
    ensures { result ≡ rate_in question.entry.version question.entry.checksum question.entry.payload.now }
{
    check_question(question)?;
    rate_fields(question.payload)
}

fn rate_fields(payload: &[u8]) -> Result<RateMask, Refusal>
    ensures { result ≡ marks_in payload.now }
{
    let (first, octets) = payload.split_first().ok_or(Refusal::TooShort)?;
    let count = (first % 64) as usize;
    check_extent(octets, octets_for(count))?;
    Ok(read_marks(count, octets))
}

// A time alignment question.
pub fn read_alignment(question: Question<'_>) -> Result<Shift, Refusal>
    ensures { result ≡ alignment_in question.entry.version question.entry.checksum question.entry.payload.now }
{
    check_question(question)?;
    Shift::try_from(only_octet(question.payload)?)
}

// An error event.
pub fn read_error_event(question: Question<'_>) -> Result<ErrorEvent, Refusal>
    ensures { result ≡ event_in question.entry.version question.entry.checksum question.entry.payload.now }
{
    check_question(question)?;
    let octet = only_octet(question.payload)?;
    let distance = Distance::try_from(octet >> 6)?;
    let cause = Cause::new(octet % 64)?;
    Ok(ErrorEvent { distance, cause })
}
