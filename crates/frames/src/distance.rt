// How far from its reporter an error happened.
ghost use Rattle.std.specs.Prelude.{◌≡◌};
ghost use Rattle.frames.specs.Distances.{distance_code, distance_in};

use crate::refusal::Refusal;

#[derive(Clone, Copy, PartialEq, Eq, Debug)]
pub enum Distance {
    // in the reporter's own Iu user plane
    Here = 0,
    // told once by another
    Beyond = 1,
    // told twice
    FarBeyond = 2,
}

impl Distance {
    pub fn code(self) -> u8
        ensures { result ≡ distance_code self }
    {
        self as u8
    }
}

// The codes over 2 are reserved. Each enum has its own table of numbers and its own refusal: one reader for all would need both as parameters, and be no plainer.
impl TryFrom<u8> for Distance {
    type Error = Refusal;

    fn try_from(code: u8) -> Result<Distance, Refusal>
        ensures { result ≡ distance_in code }
    {
        match code {
            0 => Ok(Distance::Here),
            1 => Ok(Distance::Beyond),
            2 => Ok(Distance::FarBeyond),
            _ => Err(Refusal::ReservedValue),
        }
    }
}
