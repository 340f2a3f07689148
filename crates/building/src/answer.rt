// The answers to a question: Ack and Nack, of the question's procedure and number.
ghost use Rattle.std.specs.Prelude.{◌≡◌};
ghost use Rattle.frames.specs.Procedures.{code_of};
ghost use Rattle.building.specs.Building.{ack_frame, nack_frame};

use crate::control::short_control;
use frames::cause::Cause;
use frames::control_kind::ControlKind;
use frames::number::Number;
use frames::octets::Octets;
use frames::procedure::Procedure;

pub fn build_ack(procedure: Procedure, number: Number) -> Octets
    ensures { result ≡ ack_frame (code_of procedure) number }
{
    short_control(ControlKind::Ack, procedure, number, &[])
}

pub fn build_nack(procedure: Procedure, number: Number, cause: Cause) -> Octets
    ensures { result ≡ nack_frame (code_of procedure) number cause }
{
    short_control(ControlKind::Nack, procedure, number, &[cause.value() << 2])
}
