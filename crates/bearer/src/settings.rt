// The settings of an end. Their fields are open, since no rule between them is left to keep: limits carry their ranges, and are checked when they are made. Whoever holds them knows that T is at least 1, as the law of whole runs has to.
use exchange::limits::Limits;

// How user frames are numbered, modulo 16, from the moment when a set comes into force.
#[derive(Clone, Copy, PartialEq, Eq, Debug)]
pub enum Numbering {
    // by the ticks since then
    Timed,
    // by the frames sent
    Counted,
}

// Ticks and repeats of a procedure as an owner gives them, not yet checked.
#[derive(Clone, Copy)]
pub struct Timing {
    pub ticks: u16,
    pub repeats: u8,
}

#[derive(Clone, Copy)]
pub struct Settings {
    pub initialisation: Limits,
    pub rate: Limits,
    pub alignment: Limits,
    pub numbering: Numbering,
    // whether user data with a wrong payload checksum is delivered, as bad
    pub keep_damaged: bool,
    // by which the owner tells its ends apart
    pub mark: u8,
}
