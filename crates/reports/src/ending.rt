// The kinds of procedure that a call starts or ends, and how one ends.
ghost use Rattle.std.specs.Prelude.{◌≡◌};
ghost use Rattle.reports.specs.Endings.{cause_of};

#[derive(Clone, Copy, PartialEq, Eq, Debug)]
pub enum Kind {
    Initialisation,
    RateControl,
    TimeAlignment,
    // a time alignment that the host of the core end has to answer
    HostQuestion,
}

#[derive(Clone, Copy, PartialEq, Eq, Debug)]
pub enum Ending {
    Done,
    // a new initialisation ended it
    Overtaken,
    // the host accepted
    Accepted,
    // an initialisation without an answer
    NoAnswer,
    // an initialisation that was refused, or answered erroneously, too often
    Rejected,
    RateFailure,
    AlignmentNotSupported,
    AlignmentNotPossible,
    AlignmentFailure,
}

impl Ending {
    // The cause by which a failure is told; none for what ended well or was overtaken.
    // The numbers are the interface's own, and three endings have none: no discriminant could stand for them.
    pub fn cause(self) -> Option<u8>
        ensures { result ≡ cause_of self }
    {
        match self {
            Ending::Done | Ending::Overtaken | Ending::Accepted => None,
            Ending::NoAnswer => Some(43),
            Ending::Rejected => Some(44),
            Ending::RateFailure => Some(45),
            Ending::AlignmentNotSupported => Some(47),
            Ending::AlignmentNotPossible => Some(48),
            Ending::AlignmentFailure => Some(118),
        }
    }
}
