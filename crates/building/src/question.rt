// A question of a control procedure.
ghost use Rattle.std.specs.Prelude.{◌≡◌};
ghost use Rattle.frames.specs.Distances.{distance_code};
ghost use Rattle.frames.specs.Joined.{fitting};
ghost use Rattle.frames.specs.Procedures.{code_of};
ghost use Rattle.building.specs.Building.{question_frame, alignment_frame, error_frame};

use crate::control::{control, short_control};
use frames::cause::Cause;
use frames::control_kind::ControlKind;
use frames::distance::Distance;
use frames::number::Number;
use frames::octets::Octets;
use frames::procedure::Procedure;
use frames::refusal::Refusal;
use frames::shift::Shift;

// A payload of over 508 octets is refused.
pub fn build_question(
    procedure: Procedure,
    number: Number,
    payload: &[u8],
) -> Result<Octets, Refusal>
    ensures { result ≡ fitting (question_frame (code_of procedure) number payload.now) }
{
    control(ControlKind::Question, procedure, number, payload)
}

pub fn build_alignment(number: Number, shift: Shift) -> Octets
    ensures { result ≡ alignment_frame number shift }
{
    short_control(
        ControlKind::Question,
        Procedure::TimeAlignment,
        number,
        &[shift.octet()],
    )
}

pub fn build_error_event(number: Number, distance: Distance, cause: Cause) -> Octets
    ensures { result ≡ error_frame number (distance_code distance) cause }
{
    short_control(
        ControlKind::Question,
        Procedure::ErrorEvent,
        number,
        &[(distance.code() << 6) + cause.value()],
    )
}
