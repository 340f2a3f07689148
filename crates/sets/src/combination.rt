// A combination by value: its RFCI, its IPTI, the size of each subflow in bits, and whether it is allowed.
ghost use Rattle.std.specs.Prelude.{◌≡◌, ◌≤◌, length};
ghost use Rattle.sets.specs.Rows.{blank, entered, allowed_as};

use super::limits::MOST_SUBFLOWS;
use frames::row::{Blank, Row};
use std::marker::Model;

// Fields lie in the order of the source: the small ones stand together, so that no octets are lost between them.
#[derive(Clone, Copy, PartialEq, Eq, Debug)]
pub struct Combination {
    sizes: Row<u16, MOST_SUBFLOWS>,
    rfci: u8,
    ipti: u8,
    // the mark turned round: so the zeros of a blank are allowed
    barred: bool,
}

impl Model for Combination {
    ghost use Rattle.std.specs.Prelude.{not};
    ghost use Rattle.sets.specs.Rows.{Row};

    ghost Value = { Row };

    ghost view = { λ c. record { rfci = c.rfci; ipti = c.ipti; sizes = c.sizes; allowed = not c.barred } };

    ghost inverse = { λ r. record { rfci = r.rfci; ipti = r.ipti; sizes = r.sizes; barred = not r.allowed } };
}

// What stands in a table behind the last combination: zeros throughout, so that a table is made by one fill.
impl Blank for Combination {
    ghost blank = { blank };

    fn blank() -> Combination {
        Combination {
            rfci: 0,
            ipti: 0,
            sizes: Row::new(),
            barred: false,
        }
    }
}

impl Combination {
    // A combination that is entered is allowed.
    pub(crate) fn new(rfci: u8, ipti: u8, sizes: &[u16]) -> Combination
        requires { length sizes.now ≤ MOST_SUBFLOWS }
        ensures { result ≡ entered rfci ipti sizes.now }
    {
        Combination {
            rfci,
            ipti,
            sizes: Row::of_slice(sizes).unwrap(),
            barred: false,
        }
    }

    pub fn rfci(&self) -> u8
        ensures { result ≡ self.now.rfci }
    {
        self.rfci
    }

    pub fn ipti(&self) -> u8
        ensures { result ≡ self.now.ipti }
    {
        self.ipti
    }

    // The size of each subflow in bits.
    pub fn sizes(&self) -> &[u16]
        ensures sizes { result.now ≡ self.now.sizes }
        ensures few { length result.now ≤ 7 }
    {
        self.sizes.as_slice()
    }

    pub fn is_allowed(&self) -> bool
        ensures { result ≡ self.now.allowed }
    {
        !self.barred
    }

    pub fn allow(&mut self, allowed: bool)
        ensures { self.new ≡ allowed_as allowed self.old }
    {
        self.barred = !allowed;
    }
}
