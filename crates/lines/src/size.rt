// How large a store is: a number in a range that its kind gives. `frames::ranged::Ranged` is not it: its number has the width of
// its const parameters, an octet, and a ring has up to 65,536 places.
ghost use Rattle.std.specs.Prelude.{◌≡◌, ◌≤◌};
ghost use Rattle.lines.specs.Sizes.{size_in};

use frames::refusal::Refusal;
use std::marker::Model;

#[derive(Clone, Copy, PartialEq, Eq, Debug)]
pub struct Size<const LEAST: usize, const MOST: usize> {
    places: usize,
}

impl<const LEAST: usize, const MOST: usize> Model for Size<LEAST, MOST> {
    ghost use Rattle.std.specs.Prelude.{ℕ, ◌≤◌};

    ghost Value = { ℕ };

    ghost view = { λ s. s.places };

    ghost invariant = { λ s. (LEAST ≤ s.places) × (s.places ≤ MOST) };

    ghost inverse = { λ n. record { places = n } };
}

impl<const LEAST: usize, const MOST: usize> Size<LEAST, MOST> {
    pub fn new(places: usize) -> Result<Size<LEAST, MOST>, Refusal>
        ensures { result ≡ size_in LEAST MOST places }
    {
        if !(LEAST..=MOST).contains(&places) {
            return Err(Refusal::SettingRange);
        }
        Ok(Size { places })
    }

    pub fn places(self) -> usize
        ensures is { result ≡ self.entry }
        ensures least { LEAST ≤ self.entry }
        ensures most { self.entry ≤ MOST }
    {
        self.places
    }
}
