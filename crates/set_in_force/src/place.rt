// Where subflows lie in the payload of a user frame, and what is found of a combination.
ghost use Rattle.std.specs.Prelude.{◌≡◌, ◌≤◌, length, slice_get};

use frames::row::{Blank, Row};
use sets::limits::MOST_SUBFLOWS;
use std::fmt;
use std::marker::Model;

// A subflow: its first bit, and how many it has.
#[derive(Clone, Copy, PartialEq, Eq, Debug)]
pub struct Place {
    pub first: u16,
    pub bits: u16,
}

// Nothing lies there.
impl Blank for Place {
    ghost use Rattle.set_in_force.specs.Places.{nowhere};

    ghost blank = { nowhere };

    fn blank() -> Place {
        Place { first: 0, bits: 0 }
    }
}

// The first bit and the length, in decimal digits.
impl fmt::Display for Place {
    ghost use Rattle.std.specs.Prelude.{Some};
    ghost use Rattle.set_in_force.specs.Places.{place_text};

    ghost output = { λ place. Some (place_text place) };

    fn fmt<W: fmt::Write>(&self, f: &mut fmt::Formatter<W>) -> fmt::Result {
        write!(f, "{}+{}", self.first, self.bits)
    }
}

// The subflows of a combination, in order.
#[derive(Clone, Copy, PartialEq, Eq, Debug)]
pub struct Places {
    row: Row<Place, MOST_SUBFLOWS>,
}

impl Model for Places {
    ghost use Rattle.std.specs.Prelude.{List};
    ghost use Rattle.set_in_force.specs.declared.place.Place.{Place};

    ghost Value = { List Place };

    ghost view = { λ p. p.row };

    ghost inverse = { λ xs. record { row = xs } };
}

// A combination of the set in force: its place in the set, its bits in all, its mark, and its subflows.
#[derive(Clone, Copy, PartialEq, Eq, Debug)]
pub struct Found {
    pub index: usize,
    pub bits: u16,
    pub allowed: bool,
    pub places: Places,
}

impl Places {
    pub(crate) fn new(row: Row<Place, MOST_SUBFLOWS>) -> Places
        ensures { result ≡ row }
    {
        Places { row }
    }

    pub fn as_slice(&self) -> &[Place]
        ensures places { result.now ≡ self.now }
        ensures few { length result.now ≤ 7 }
    {
        self.row.as_slice()
    }

    // The first bit and the length of a subflow, counted from 0.
    pub fn get(&self, subflow: usize) -> Option<Place>
        ensures { result ≡ slice_get self.now subflow }
    {
        self.row.get(subflow)
    }
}
