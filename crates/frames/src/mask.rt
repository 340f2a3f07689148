// The marks of a rate question, from RFCI 0 on: a marked combination is barred, the others are allowed.
ghost use Rattle.std.specs.Prelude.{◌≡◌, ◌≤◌, false, length};
ghost use Rattle.frames.specs.Values.{marks_in};

use crate::refusal::Refusal;
use crate::row::{Blank, Row};
use std::marker::Model;

// The most marks that a question has: one for each RFCI.
pub const MOST_MARKS: usize = 63;

// No mark is set behind the last.
impl Blank for bool {
    ghost blank = { false };

    fn blank() -> bool {
        false
    }
}

#[derive(Clone, Copy, PartialEq, Eq, Debug)]
pub struct RateMask {
    bars: Row<bool, MOST_MARKS>,
}

impl Model for RateMask {
    ghost use Rattle.std.specs.Prelude.{Bool, List};

    ghost Value = { List Bool };

    ghost view = { λ m. m.bars };

    ghost inverse = { λ xs. record { bars = xs } };
}

impl RateMask {
    // The first `count` of the marks, refused where that is over 63.
    pub fn new(count: usize, bars: [bool; MOST_MARKS]) -> Result<RateMask, Refusal>
        ensures { result ≡ marks_in count bars }
    {
        if count > MOST_MARKS {
            return Err(Refusal::ValueRange);
        }
        Ok(RateMask {
            bars: Row::of_slice(&bars[..count])?,
        })
    }

    pub fn marks(&self) -> &[bool]
        ensures marks { result.now ≡ self.now }
        ensures few { length result.now ≤ 63 }
    {
        self.bars.as_slice()
    }
}
