// What is shown of an order and of a set.
use crate::bench::{Answer, Complaint};
use frames::extent::octets_for;
use frames::hex::Hex;
use frames::number::Number;
use link_building::building::link_count;
use link_frames::framing::link_frame;
use set_in_force::in_force::InForce;
use set_in_force::place::Found;
use sets::closed::Set;
use std::fmt;

// The links of a set as frames, one to a line.
#[derive(Clone, Copy)]
struct Links<'a> {
    set: &'a Set,
}

impl<'a> fmt::Display for Links<'a> {
    fn fmt<W: fmt::Write>(&self, f: &mut fmt::Formatter<W>) -> fmt::Result {
        // k is the number of the link that is asked for and shown: nothing is indexed
        for k in 0..link_count(self.set) {
            match link_frame(self.set, Number::wrapped(k as u16)) {
                Ok(frame) => writeln!(f, "link {k} {}", Hex::of(frame.as_slice()))?,
                Err(refusal) => writeln!(f, "no {refusal}")?,
            }
        }
        Ok(())
    }
}

// Where the subflows of a combination lie, and how long they are.
#[derive(Clone, Copy)]
struct Subflows<'a> {
    found: &'a Found,
}

impl<'a> fmt::Display for Subflows<'a> {
    fn fmt<W: fmt::Write>(&self, f: &mut fmt::Formatter<W>) -> fmt::Result {
        let bits = self.found.bits;
        write!(f, "{bits} bits, {} octets:", octets_for(bits as usize))?;
        for place in self.found.places.as_slice() {
            write!(f, " {place}")?;
        }
        Ok(())
    }
}

// The combinations of a set in force, one to a line.
#[derive(Clone, Copy)]
struct Combinations<'a> {
    set: &'a InForce,
}

impl<'a> fmt::Display for Combinations<'a> {
    fn fmt<W: fmt::Write>(&self, f: &mut fmt::Formatter<W>) -> fmt::Result {
        for row in self.set.rows() {
            let rfci = row.rfci();
            if let Some(found) = self.set.look_up(rfci) {
                writeln!(f, "RFCI {rfci}: {}", Subflows { found: &found })?;
            }
        }
        Ok(())
    }
}

impl fmt::Display for Answer {
    fn fmt<W: fmt::Write>(&self, f: &mut fmt::Formatter<W>) -> fmt::Result {
        match self {
            Answer::Done => writeln!(f, "ok"),
            Answer::Closed { set, in_force } => {
                write!(f, "{}{}", Links { set }, Combinations { set: in_force })
            }
            Answer::Found { rfci } => writeln!(f, "RFCI {rfci}"),
        }
    }
}

impl fmt::Display for Complaint {
    fn fmt<W: fmt::Write>(&self, f: &mut fmt::Formatter<W>) -> fmt::Result {
        match self {
            Complaint::Unclear => write!(f, "what?"),
            Complaint::NoDraft => write!(f, "no draft"),
            Complaint::Refused(refusal) => write!(f, "no {refusal}"),
        }
    }
}
