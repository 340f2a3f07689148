// A number in a range that its kind gives.
// (d): the number is as wide as the const parameters, and Rust has none of a type that is a parameter; so octets here, and `usize` for the sizes of lines.
ghost use Rattle.std.specs.Prelude.{◌≡◌, ◌+◌, ◌%◌, ◌≤◌, Some};
ghost use Rattle.std.specs.Fmt.{decimal};
ghost use Rattle.frames.specs.Numbers.{within, ranged_in};

use crate::refusal::Refusal;
use std::fmt;
use std::marker::Model;

#[derive(Clone, Copy, PartialEq, Eq, Debug)]
pub struct Ranged<const LEAST: u8, const MOST: u8> {
    pub(crate) value: u8,
}

impl<const LEAST: u8, const MOST: u8> Model for Ranged<LEAST, MOST> {
    ghost use Rattle.std.specs.Prelude.{ℕ, ◌≤◌};

    ghost Value = { ℕ };

    ghost view = { λ r. r.value };

    ghost invariant = { λ r. (LEAST ≤ r.value) × (r.value ≤ MOST) };

    ghost inverse = { λ n. record { value = n } };
}

impl<const LEAST: u8, const MOST: u8> Ranged<LEAST, MOST> {
    // A value out of the range is refused.
    pub fn new(value: u8) -> Result<Ranged<LEAST, MOST>, Refusal>
        ensures { result ≡ ranged_in LEAST MOST value }
    {
        Ranged::within(value).ok_or(Refusal::ValueRange)
    }

    // For a caller that refuses in another way.
    pub fn within(value: u8) -> Option<Ranged<LEAST, MOST>>
        ensures { result ≡ within LEAST MOST value }
    {
        // a closure under `then` would not see that the test held
        if (LEAST..=MOST).contains(&value) {
            Some(Ranged { value })
        } else {
            None
        }
    }

    pub fn value(self) -> u8
        ensures is { result ≡ self.entry }
        ensures least { LEAST ≤ self.entry }
        ensures most { self.entry ≤ MOST }
    {
        self.value
    }
}

// The number in decimal digits.
impl<const LEAST: u8, const MOST: u8> fmt::Display for Ranged<LEAST, MOST> {
    ghost output = { λ r. Some (decimal r) };

    fn fmt<W: fmt::Write>(&self, f: &mut fmt::Formatter<W>) -> fmt::Result {
        write!(f, "{}", self.value)
    }
}

// Numbers that go round: 0 comes after the most.
impl<const MOST: u8> Ranged<0, MOST> {
    pub fn first() -> Ranged<0, MOST>
        ensures { result ≡ 0 }
    {
        Ranged { value: 0 }
    }

    pub fn following(self) -> Ranged<0, MOST>
        ensures { result ≡ (self.entry + 1) % (MOST + 1) }
    {
        Ranged::wrapped(self.value as u16 + 1)
    }

    // The number that a count comes to.
    pub fn wrapped(count: u16) -> Ranged<0, MOST>
        ensures { result ≡ count % (MOST + 1) }
    {
        Ranged {
            value: (count % (MOST as u16 + 1)) as u8,
        }
    }
}
