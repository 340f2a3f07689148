// How sets and what a report tells are written.
use frames::hex::Hex;
use reports::ending::{Ending, Kind};
use reports::happening::{Delivery, Happening};
use set_in_force::in_force::InForce;
use sets::combination::Combination;
use std::fmt;

#[derive(Clone, Copy)]
struct KindName(Kind);

impl fmt::Display for KindName {
    fn fmt<W: fmt::Write>(&self, f: &mut fmt::Formatter<W>) -> fmt::Result {
        match self.0 {
            Kind::Initialisation => write!(f, "init"),
            Kind::RateControl => write!(f, "rate"),
            Kind::TimeAlignment => write!(f, "align"),
            Kind::HostQuestion => write!(f, "question"),
        }
    }
}

// How a procedure ended: a failure by its cause.
#[derive(Clone, Copy)]
struct Outcome(Ending);

impl fmt::Display for Outcome {
    fn fmt<W: fmt::Write>(&self, f: &mut fmt::Formatter<W>) -> fmt::Result {
        match (self.0, self.0.cause()) {
            (_, Some(cause)) => write!(f, "{cause}"),
            (Ending::Overtaken, None) => write!(f, "overtaken"),
            (Ending::Accepted, None) => write!(f, "accepted"),
            (_, None) => write!(f, "done"),
        }
    }
}

#[derive(Clone, Copy)]
struct Delivered(Delivery);

impl fmt::Display for Delivered {
    fn fmt<W: fmt::Write>(&self, f: &mut fmt::Formatter<W>) -> fmt::Result {
        let Delivery {
            rfci,
            fqc,
            gap,
            place,
            subflows,
        } = self.0;
        write!(f, "{rfci} {fqc} {gap} {place}")?;
        for part in subflows.as_slice() {
            write!(f, " {part}")?;
        }
        Ok(())
    }
}

// A thing that a report tells.
#[derive(Clone, Copy)]
pub struct Said(pub Happening);

impl fmt::Display for Said {
    fn fmt<W: fmt::Write>(&self, f: &mut fmt::Formatter<W>) -> fmt::Result {
        match self.0 {
            Happening::Started(kind) => write!(f, "started {}", KindName(kind)),
            Happening::Ended(kind, ending) => {
                write!(f, "ended {} {}", KindName(kind), Outcome(ending))
            }
            Happening::Delivered(delivery) => write!(f, "delivered {}", Delivered(delivery)),
            Happening::HandedOver(frame) => write!(f, "handed {}", Hex::of(frame.as_slice())),
            Happening::Refused(frame) => write!(f, "refused {}", Hex::of(frame.as_slice())),
        }
    }
}

// A combination, with its mark.
#[derive(Clone, Copy)]
struct Row<'a>(&'a Combination);

impl<'a> fmt::Display for Row<'a> {
    fn fmt<W: fmt::Write>(&self, f: &mut fmt::Formatter<W>) -> fmt::Result {
        let row = self.0;
        write!(f, "{}/{}", row.rfci(), row.ipti())?;
        let mut before = '/';
        for size in row.sizes() {
            write!(f, "{before}{size}")?;
            before = ',';
        }
        let mark = if row.is_allowed() { 'a' } else { 'b' };
        write!(f, "/{mark}")
    }
}

// A set in force, each combination with its mark.
#[derive(Clone, Copy)]
pub struct Standing<'a>(pub &'a InForce);

impl<'a> fmt::Display for Standing<'a> {
    fn fmt<W: fmt::Write>(&self, f: &mut fmt::Formatter<W>) -> fmt::Result {
        let opening = self.0.opening();
        let subflows = opening.subflows();
        let timed = u8::from(opening.is_timed());
        let data_type = opening.data_type().number();
        write!(f, "{subflows} {timed} {data_type}")?;
        for combination in self.0.rows() {
            write!(f, " {}", Row(combination))?;
        }
        Ok(())
    }
}
