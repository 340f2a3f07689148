// The combinations that octets begin with, up to the last one.
ghost use Rattle.std.specs.Prelude.{◌≡◌, length};
ghost use Rattle.link_reading.specs.Layout.{is_last, is_wide, width, coded};

use std::marker::Model;

// A combination in octets: its first octet has two marks and the RFCI, the others have the sizes.
#[derive(Clone, Copy)]
pub(crate) struct Coded<'a> {
    pub(crate) head: u8,
    pub(crate) sizes: &'a [u8],
}

// Those that are left of some octets, for so many subflows: none behind the last one, and none that is cut short.
#[derive(Drop)]
pub(crate) struct Combinations<'a> {
    octets: &'a [u8],
    subflows: u8,
}

impl<'a> Model for Combinations<'a> {
    ghost use Rattle.std.specs.Prelude.{List, length};
    ghost use Rattle.link_reading.specs.Layout.{Coding, coded};

    ghost Value = { List Coding };

    ghost view = { λ c. coded (length c.octets.now) c.subflows c.octets.now };
}

impl<'a> Combinations<'a> {
    pub(crate) fn of(octets: &'a [u8], subflows: u8) -> Combinations<'a>
        ensures { result ≡ coded (length octets.now) subflows octets.now }
    {
        Combinations { octets, subflows }
    }
}

pub(crate) fn is_last(octet: u8) -> bool
    ensures { result ≡ is_last octet }
{
    octet / 128 % 2 == 1
}

pub(crate) fn has_wide(octet: u8) -> bool
    ensures { result ≡ is_wide octet }
{
    octet / 64 % 2 == 1
}

// The octets of so many sizes; `wide` is the bit LI itself.
pub(crate) fn width_of(subflows: u8, wide: bool) -> usize
    ensures { result ≡ width subflows wide }
{
    if wide {
        subflows as usize * 2
    } else {
        subflows as usize
    }
}

impl<'a> Iterator for Combinations<'a> {
    ghost use Rattle.std.specs.Iterator.{YieldsFirstBy, item_count};
    ghost use Rattle.link_reading.specs.Layout.{coding};

    type Item = Coded<'a>;

    ghost next_gives = { YieldsFirstBy coding (λ combinations. combinations) };

    ghost remaining = { item_count (λ combinations. combinations) };

    fn next(&mut self) -> Option<Coded<'a>> {
        let (head, after) = self.octets.split_first()?;
        let (sizes, rest) = after.split_at_checked(width_of(self.subflows, has_wide(*head)))?;
        self.octets = if is_last(*head) { &[] } else { rest };
        Some(Coded { head: *head, sizes })
    }
}
