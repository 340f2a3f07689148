// Why a call is refused: one case for each number that the product answers.
ghost use Rattle.std.specs.Prelude.{◌≡◌, Some};
ghost use Rattle.std.specs.Fmt.{decimal};
ghost use Rattle.frames.specs.Refusals.{number_of};

use std::fmt;

#[derive(Clone, Copy, PartialEq, Eq, Debug)]
pub enum Refusal {
    // a received frame
    HeaderChecksum = 0,
    PayloadChecksum = 1,
    PduType = 4,
    Procedure = 5,
    ReservedValue = 6,
    TooShort = 8,
    UnexpectedPduType = 16,
    UnexpectedProcedure = 18,
    UnknownRfci = 19,
    UnexpectedValue = 20,
    ModeVersion = 49,
    TooLong = 100,
    // a call
    SettingRange = 101,
    HostHoldsQuestion = 102,
    NotThisQuestion = 103,
    LinkTooLong = 104,
    LineDeclines = 105,
    WrongPhase = 106,
    AlreadyRuns = 107,
    RfciBarred = 108,
    OctetCount = 109,
    RfciTaken = 110,
    Dimensions = 111,
    TooManyCombinations = 112,
    NoCombination = 113,
    ValueRange = 114,
    Hexadecimal = 115,
    NoSuchSizes = 116,
    BufferTooSmall = 117,
}

impl Refusal {
    // The number that a customer, and where one goes back the other end, is told.
    pub fn number(self) -> u8
        ensures { result ≡ number_of self }
    {
        self as u8
    }
}

// The number in decimal digits.
impl fmt::Display for Refusal {
    ghost output = { λ refusal. Some (decimal (number_of refusal)) };

    fn fmt<W: fmt::Write>(&self, f: &mut fmt::Formatter<W>) -> fmt::Result {
        write!(f, "{}", self.number())
    }
}
