// The kinds of question.
ghost use Rattle.std.specs.Prelude.{◌≡◌, ℕ, Bool, List, Option};
ghost use Rattle.frames.specs.declared.procedure.Procedure.{Procedure};
ghost use Rattle.reports.specs.declared.ending.Ending.{Ending};
ghost use Rattle.reports.specs.declared.ending.Kind.{Kind};
ghost use Rattle.exchange.specs.declared.answer.Turn.{Turn};
ghost use Rattle.exchange.specs.Asked.{Proper};
ghost use Rattle.exchange.specs.Asking.{leads};

use crate::answer::Turn;
use frames::cause::Cause;
use frames::octets::Octets;
use frames::procedure::Procedure;
use frames::refusal::Refusal;
use reports::ending::{Ending, Kind};

// A kind of question names its procedure, its frames, its endings and what an answer leads to.
pub trait Inquiry: Drop {
    const PROCEDURE: Procedure;

    const KIND: Kind;

    // How it ends where no answer comes in time, and where it is not accepted often enough.
    const UNANSWERED: Ending;

    const DECLINED: Ending;

    ghost PROCEDURE: { Procedure };

    ghost KIND: { Kind };

    ghost UNANSWERED: { Ending };

    ghost DECLINED: { Ending };

    // The payload and the frame for each number, and whether a further frame follows.
    ghost asks: { Self → ℕ → List ℕ };

    ghost frames: { Self → ℕ → List ℕ };

    ghost follows: { Self → ℕ → Bool };

    // What an answer leads to, by the cause of a Nack, none for an Ack.
    ghost turns: { Option ℕ → Turn };

    fn frame(&self, number: u8) -> Octets
        ensures { result ≡ frames self.now number };

    fn more(&self, number: u8) -> bool
        ensures { result ≡ follows self.now number };

    // An erroneous answer counts as declined.
    fn turn(answer: &Result<Option<Cause>, Refusal>) -> Turn
        ensures { result ≡ leads turns answer.now };

    // Each frame is the question of the procedure, and no answer ends it as done but after its last frame.
    ghost proper: { Proper PROCEDURE KIND asks frames follows UNANSWERED DECLINED turns };
}
