// What a line of a script is answered: what was done, or why there was no call or it was refused.
use crate::printing::Standing;
use frames::hex::Hex;
use frames::octets::Octets;
use frames::refusal::Refusal;
use radio_end::received::Received;
use set_in_force::in_force::InForce;
use std::fmt;

#[derive(Clone, Copy)]
pub enum Answer {
    Done,
    Found { rfci: u8 },
    Received(Received),
    Taken(Option<Octets>),
    InForce(Option<InForce>),
}

impl fmt::Display for Answer {
    fn fmt<W: fmt::Write>(&self, f: &mut fmt::Formatter<W>) -> fmt::Result {
        match self {
            Answer::Done => write!(f, "ok"),
            Answer::Found { rfci } => write!(f, "ok {rfci}"),
            Answer::Received(Received::Delivered) => write!(f, "ok delivered"),
            Answer::Received(Received::ErrorEvent { cause, distance }) => {
                write!(f, "ok event {cause} {distance}")
            }
            Answer::Received(Received::Ack) => write!(f, "ok ack"),
            Answer::Received(Received::Nack(cause)) => write!(f, "ok nack {cause}"),
            Answer::Taken(None) | Answer::InForce(None) => write!(f, "ok none"),
            Answer::Taken(Some(frame)) => write!(f, "ok {}", Hex::of(frame.as_slice())),
            Answer::InForce(Some(set)) => write!(f, "ok {}", Standing(set)),
        }
    }
}

// What a line can ask for in vain.
#[derive(Clone, Copy, PartialEq, Eq, Debug)]
pub enum Missing {
    Draft,
    ClosedSet,
    Settings,
    LineSize,
    RadioEnd,
    CoreEnd,
    Call,
}

impl fmt::Display for Missing {
    fn fmt<W: fmt::Write>(&self, f: &mut fmt::Formatter<W>) -> fmt::Result {
        match self {
            Missing::Draft => write!(f, "draft"),
            Missing::ClosedSet => write!(f, "closed set"),
            Missing::Settings => write!(f, "settings"),
            Missing::LineSize => write!(f, "line size"),
            Missing::RadioEnd => write!(f, "radio end"),
            Missing::CoreEnd => write!(f, "core end"),
            Missing::Call => write!(f, "such call at the radio end"),
        }
    }
}

#[derive(Clone, Copy)]
pub enum Complaint {
    Refused(Refusal),
    // a call on something that is not there
    Missing(Missing),
}

impl From<Refusal> for Complaint {
    fn from(refusal: Refusal) -> Complaint {
        Complaint::Refused(refusal)
    }
}

impl From<Missing> for Complaint {
    fn from(missing: Missing) -> Complaint {
        Complaint::Missing(missing)
    }
}

impl fmt::Display for Complaint {
    fn fmt<W: fmt::Write>(&self, f: &mut fmt::Formatter<W>) -> fmt::Result {
        match self {
            Complaint::Refused(refusal) => write!(f, "no {refusal}"),
            Complaint::Missing(what) => write!(f, "? there is no {what}"),
        }
    }
}
