// A rate question: the marks of the combinations from RFCI 0 on.
ghost use Rattle.std.specs.Prelude.{◌≡◌};
ghost use Rattle.frames.specs.declared.procedure.Procedure.TheVariants.{RateControl as Asking};
ghost use Rattle.reports.specs.declared.ending.Kind.TheVariants.{RateControl};
ghost use Rattle.reports.specs.declared.ending.Ending.TheVariants.{RateFailure};
ghost use Rattle.questions.specs.Answering.{acceptance_leads};
ghost use Rattle.questions.specs.Kinds.{rate_asked, rate_frames, alone};
ghost use Rattle.std.proofs.Common.{rules};

use crate::answer::accept;
use building::rate::build_rate;
use exchange::answer::Turn;
use exchange::inquiry::Inquiry;
use frames::cause::Cause;
use frames::mask::RateMask;
use frames::number::Number;
use frames::octets::Octets;
use frames::procedure::Procedure;
use frames::refusal::Refusal;
use reports::ending::{Ending, Kind};
use std::marker::Model;

// Beside the other kinds it differs in its payload, in its endings and in what an answer leads to, which is all that an impl of the trait says:
// one struct for them would be a generic with the same members again.
#[derive(Clone, Copy)]
pub struct RateQuestion {
    mask: RateMask,
}

impl Model for RateQuestion {
    ghost use Rattle.std.specs.Prelude.{Bool, List};

    ghost Value = { List Bool };

    ghost view = { λ q. q.mask };

    ghost inverse = { λ bars. record { mask = bars } };
}

impl RateQuestion {
    pub fn new(mask: RateMask) -> RateQuestion
        ensures { result ≡ mask }
    {
        RateQuestion { mask }
    }

    pub fn mask(&self) -> &RateMask
        ensures { result.now ≡ self.now }
    {
        &self.mask
    }
}

impl Inquiry for RateQuestion {
    const PROCEDURE: Procedure = Procedure::RateControl;

    const KIND: Kind = Kind::RateControl;

    const UNANSWERED: Ending = Ending::RateFailure;

    const DECLINED: Ending = Ending::RateFailure;

    ghost PROCEDURE = { Asking };

    ghost KIND = { RateControl };

    ghost UNANSWERED = { RateFailure };

    ghost DECLINED = { RateFailure };

    ghost asks = { rate_asked };

    ghost frames = { rate_frames };

    ghost follows = { alone };

    ghost turns = { acceptance_leads };

    ghost proper = { Prim.search rules };

    fn frame(&self, number: u8) -> Octets {
        build_rate(Number::wrapped(number as u16), &self.mask)
    }

    fn more(&self, number: u8) -> bool {
        false
    }

    fn turn(answer: &Result<Option<Cause>, Refusal>) -> Turn {
        accept(answer)
    }
}
