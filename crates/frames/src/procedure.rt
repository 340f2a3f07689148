// The control procedures, by the number that a control frame bears.
ghost use Rattle.std.specs.Prelude.{◌≡◌};
ghost use Rattle.frames.specs.Procedures.{code_of, procedure_in};

use crate::refusal::Refusal;

#[derive(Clone, Copy, PartialEq, Eq, Debug)]
pub enum Procedure {
    Initialisation = 0,
    RateControl = 1,
    TimeAlignment = 2,
    ErrorEvent = 3,
}

impl Procedure {
    pub fn code(self) -> u8
        ensures { result ≡ code_of self }
    {
        self as u8
    }
}

// The numbers over 3 are reserved.
impl TryFrom<u8> for Procedure {
    type Error = Refusal;

    fn try_from(code: u8) -> Result<Procedure, Refusal>
        ensures { result ≡ procedure_in code }
    {
        match code {
            0 => Ok(Procedure::Initialisation),
            1 => Ok(Procedure::RateControl),
            2 => Ok(Procedure::TimeAlignment),
            3 => Ok(Procedure::ErrorEvent),
            _ => Err(Refusal::Procedure),
        }
    }
}
