// A set that is offered: its links, one after the other.
ghost use Rattle.std.specs.Prelude.{◌≡◌, ◌%◌, ◌≤◌, length};
ghost use Rattle.frames.specs.declared.procedure.Procedure.TheVariants.{Initialisation as Asking};
ghost use Rattle.reports.specs.declared.ending.Kind.TheVariants.{Initialisation};
ghost use Rattle.reports.specs.declared.ending.Ending.TheVariants.{NoAnswer, Rejected};
ghost use Rattle.building.specs.Building.{question_frame};
ghost use Rattle.questions.specs.Answering.{acceptance_leads};
ghost use Rattle.questions.specs.Kinds.{links_asked, links_frames, links_follow, link_length, links_fit};
ghost use Rattle.std.proofs.Common.{rules};

use crate::answer::accept;
use building::question::build_question;
use exchange::answer::Turn;
use exchange::inquiry::Inquiry;
use frames::cause::Cause;
use frames::number::Number;
use frames::octets::{LONGEST, Octets};
use frames::procedure::Procedure;
use frames::refusal::Refusal;
use link_building::building::{link_count, link_payload};
use reports::ending::{Ending, Kind};
use sets::closed::Set;
use std::marker::Model;

// The octets before the payload of a control frame.
const HEADER: usize = 4;

#[derive(Clone, Copy)]
pub struct Links {
    set: Set,
}

impl Model for Links {
    ghost use Rattle.sets.specs.Contents.{Contents};

    ghost Value = { Contents };

    ghost view = { λ q. q.set };

    ghost inverse = { λ c. record { set = c } };
}

impl Links {
    pub fn new(set: Set) -> Links
        ensures { result ≡ set }
    {
        Links { set }
    }

    pub fn set(&self) -> &Set
        ensures { result.now ≡ self.now }
    {
        &self.set
    }

    // The octets of the frame of a link; past the last link, of a frame with no payload.
    fn length(&self, number: u8) -> usize
        ensures { result ≡ link_length number self.now }
    {
        link_payload(&self.set, number).map_or(HEADER, |payload| HEADER + payload.as_slice().len())
    }

    // Whether every link fits a frame.
    pub fn fit(&self) -> bool
        ensures { result ≡ links_fit self.now }
    {
        (0..4u8).all(|number| self.length(number) <= LONGEST)
    }
}

// The question with a link's payload, or with none.
fn link_frame(number: u8, payload: &[u8]) -> Octets
    requires { length payload.now ≤ 128 }
    ensures { result ≡ question_frame 0 (number % 4) payload.now }
{
    // a kind has a frame for every number, and a frame has two bits for its own
    let number = Number::wrapped(number as u16);
    build_question(Links::PROCEDURE, number, payload).unwrap()
}

impl Inquiry for Links {
    const PROCEDURE: Procedure = Procedure::Initialisation;

    const KIND: Kind = Kind::Initialisation;

    const UNANSWERED: Ending = Ending::NoAnswer;

    const DECLINED: Ending = Ending::Rejected;

    ghost PROCEDURE = { Asking };

    ghost KIND = { Initialisation };

    ghost UNANSWERED = { NoAnswer };

    ghost DECLINED = { Rejected };

    ghost asks = { links_asked };

    ghost frames = { links_frames };

    ghost follows = { links_follow };

    ghost turns = { acceptance_leads };

    ghost proper = { Prim.search rules };

    fn frame(&self, number: u8) -> Octets {
        link_payload(&self.set, number).map_or_else(
            || link_frame(number, &[]),
            |payload| link_frame(number, payload.as_slice()),
        )
    }

    fn more(&self, number: u8) -> bool {
        number < 3 && number + 1 < link_count(&self.set)
    }

    fn turn(answer: &Result<Option<Cause>, Refusal>) -> Turn {
        accept(answer)
    }
}
