// By how much the other end is to send later or earlier: 1 to 80 steps of 500 microseconds.
ghost use Rattle.std.specs.Prelude.{◌≡◌, ◌≤◌};
ghost use Rattle.frames.specs.Values.{shift_of, shift_by, direction_of, steps_of};

use crate::refusal::Refusal;
use std::marker::Model;

#[derive(Clone, Copy, PartialEq, Eq, Debug)]
pub enum Direction {
    Delay,
    Advance,
}

// It is known by the octet of an alignment question that asks for it.
#[derive(Clone, Copy, PartialEq, Eq, Debug)]
pub struct Shift {
    octet: u8,
}

impl Model for Shift {
    ghost use Rattle.std.specs.Prelude.{◌≡◌, ℕ, Ok};
    ghost use Rattle.frames.specs.Values.{shift_of};

    ghost Value = { ℕ };

    ghost view = { λ s. s.octet };

    ghost invariant = { λ s. shift_of s.octet ≡ Ok s.octet };

    ghost inverse = { λ n. record { octet = n } };
}

impl Shift {
    // Steps of 0, and over 80, are refused.
    pub fn new(direction: Direction, steps: u8) -> Result<Shift, Refusal>
        ensures { result ≡ shift_by direction steps }
    {
        match steps {
            1..=80 => Ok(Shift {
                octet: match direction {
                    Direction::Delay => steps,
                    Direction::Advance => 128 + steps,
                },
            }),
            _ => Err(Refusal::ValueRange),
        }
    }

    pub fn direction(self) -> Direction
        ensures { result ≡ direction_of self }
    {
        if self.octet < 128 {
            Direction::Delay
        } else {
            Direction::Advance
        }
    }

    // In units of 500 microseconds.
    pub fn steps(self) -> u8
        ensures is { result ≡ steps_of self }
        ensures some { 1 ≤ result }
        ensures few { result ≤ 80 }
    {
        let Shift { octet } = self;
        octet % 128
    }

    // The octet of an alignment question.
    pub fn octet(self) -> u8
        ensures is { result ≡ self }
        ensures fits { shift_of self ≡ Ok self }
    {
        self.octet
    }
}

// What an octet of an alignment question asks for.
impl TryFrom<u8> for Shift {
    type Error = Refusal;

    fn try_from(octet: u8) -> Result<Shift, Refusal>
        ensures { result ≡ shift_of octet }
    {
        match octet {
            1..=80 | 129..=208 => Ok(Shift { octet }),
            _ => Err(Refusal::ReservedValue),
        }
    }
}
