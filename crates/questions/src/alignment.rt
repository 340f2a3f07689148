// An alignment question: by how much the other end is to send later or earlier.
ghost use Rattle.std.specs.Prelude.{◌≡◌};
ghost use Rattle.frames.specs.declared.procedure.Procedure.TheVariants.{TimeAlignment as Asking};
ghost use Rattle.reports.specs.declared.ending.Kind.TheVariants.{TimeAlignment};
ghost use Rattle.reports.specs.declared.ending.Ending.TheVariants.{AlignmentFailure};
ghost use Rattle.questions.specs.Answering.{alignment_turns};
ghost use Rattle.questions.specs.Kinds.{alignment_asked, alignment_frames, alone};
ghost use Rattle.std.proofs.Common.{rules};

use crate::answer::AlignmentAnswer;
use building::question::build_alignment;
use exchange::answer::Turn;
use exchange::inquiry::Inquiry;
use frames::cause::Cause;
use frames::number::Number;
use frames::octets::Octets;
use frames::procedure::Procedure;
use frames::refusal::Refusal;
use frames::shift::Shift;
use reports::ending::{Ending, Kind};
use std::marker::Model;

// It is known by the octet that asks for the shift.
#[derive(Clone, Copy)]
pub struct AlignmentQuestion {
    shift: Shift,
}

impl Model for AlignmentQuestion {
    ghost use Rattle.std.specs.Prelude.{ℕ};

    ghost Value = { ℕ };

    ghost view = { λ q. q.shift };

    ghost inverse = { λ octet. record { shift = octet } };
}

impl AlignmentQuestion {
    pub fn new(shift: Shift) -> AlignmentQuestion
        ensures { result ≡ shift }
    {
        AlignmentQuestion { shift }
    }

    pub fn shift(&self) -> Shift
        ensures { result ≡ self.now }
    {
        self.shift
    }
}

// What the cause of an answer leads to.
fn turn_by(cause: Option<Cause>) -> Turn
    ensures { result ≡ alignment_turns cause }
{
    AlignmentAnswer::from(cause.map(|cause| cause.value())).turn()
}

impl Inquiry for AlignmentQuestion {
    const PROCEDURE: Procedure = Procedure::TimeAlignment;

    const KIND: Kind = Kind::TimeAlignment;

    const UNANSWERED: Ending = Ending::AlignmentFailure;

    const DECLINED: Ending = Ending::AlignmentFailure;

    ghost PROCEDURE = { Asking };

    ghost KIND = { TimeAlignment };

    ghost UNANSWERED = { AlignmentFailure };

    ghost DECLINED = { AlignmentFailure };

    ghost asks = { alignment_asked };

    ghost frames = { alignment_frames };

    ghost follows = { alone };

    ghost turns = { alignment_turns };

    ghost proper = { Prim.search rules };

    fn frame(&self, number: u8) -> Octets {
        build_alignment(Number::wrapped(number as u16), self.shift)
    }

    fn more(&self, number: u8) -> bool {
        false
    }

    fn turn(answer: &Result<Option<Cause>, Refusal>) -> Turn {
        answer.map_or(Turn::Again, |cause| turn_by(cause))
    }
}
