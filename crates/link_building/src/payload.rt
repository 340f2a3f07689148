// The payload of a link by value: at most 128 octets. Eight combinations of seven sizes and their IPTIs take no more.
ghost use Rattle.std.specs.Prelude.{◌≡◌, ℕ, ◌<◌, ◌≤◌, List, [], ◌∷◌, ◌++◌, length};

use frames::row::Row;
use std::marker::Model;

pub(crate) const MOST_OCTETS: usize = 128;

#[derive(Clone, Copy, PartialEq, Eq, Debug)]
pub struct Payload {
    row: Row<u8, MOST_OCTETS>,
}

impl Model for Payload {
    ghost Value = { List ℕ };

    ghost view = { λ p. p.row };

    ghost inverse = { λ xs. record { row = xs } };
}

impl Payload {
    pub(crate) fn new() -> Payload
        ensures { result ≡ [] }
    {
        Payload { row: Row::new() }
    }

    pub fn as_slice(&self) -> &[u8]
        ensures octets { result.now ≡ self.now }
        ensures few { length result.now ≤ 128 }
    {
        self.row.as_slice()
    }

    // That there is room is asked for where links are written: the reason stands there.
    pub(crate) fn push(&mut self, octet: u8)
        requires { length self.old < MOST_OCTETS }
        ensures { self.new ≡ self.old ++ octet ∷ [] }
    {
        self.row.push(octet).unwrap();
    }
}
