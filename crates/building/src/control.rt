// Control frames of every kind.
ghost use Rattle.std.specs.Prelude.{◌≡◌, ◌≤◌, length};
ghost use Rattle.frames.specs.Joined.{fitting};
ghost use Rattle.frames.specs.Procedures.{code_of};
ghost use Rattle.building.specs.Control.{control_frame};

use crate::layout::header;
use checksum::payload_checksum;
use frames::control_kind::ControlKind;
use frames::header::PduType;
use frames::number::Number;
use frames::octets::Octets;
use frames::procedure::Procedure;
use frames::refusal::Refusal;

// Procedure, number and payload come apart, as the builders have them: a struct of them would be made only to be taken apart, and be no plainer.
// A question has its payload's checksum, and an answer spare bits in the place of it.
pub(crate) fn control(
    kind: ControlKind,
    procedure: Procedure,
    number: Number,
    payload: &[u8],
) -> Result<Octets, Refusal>
    ensures { result ≡ fitting (control_frame kind (code_of procedure) number payload.now) }
{
    let first = PduType::Control.number() * 16 + kind as u8 * 4 + number.value();
    let sum = match kind {
        ControlKind::Question => payload_checksum(payload),
        ControlKind::Ack | ControlKind::Nack => 0,
    };
    Octets::of_parts(&header(first, procedure.code(), sum), payload)
}

// The same of a payload that is known to be short.
pub(crate) fn short_control(
    kind: ControlKind,
    procedure: Procedure,
    number: Number,
    payload: &[u8],
) -> Octets
    requires { length payload.now ≤ 9 }
    ensures { result ≡ control_frame kind (code_of procedure) number payload.now }
{
    control(kind, procedure, number, payload).unwrap()
}
