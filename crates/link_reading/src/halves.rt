// Half octets, the high one of an octet before the low one.
ghost use Rattle.std.specs.Prelude.{◌≡◌, ℕ, List, [], ◌++◌, if◌then◌else◌};
ghost use Rattle.std.specs.Option.{option_to_list};
ghost use Rattle.link_reading.specs.Layout.{halves, halves_if};

use std::marker::Model;

#[derive(Drop)]
pub(crate) struct Halves<'a> {
    low: Option<u8>,
    octets: &'a [u8],
}

impl<'a> Model for Halves<'a> {
    ghost Value = { List ℕ };

    ghost view = { λ h. option_to_list h.low ++ halves h.octets.now };
}

impl<'a> Halves<'a> {
    // Those of the octets, or none: `some` is TI itself.
    #[tactic(auto, unfolding(crate::specs::Layout::halves))]
    pub(crate) fn of(octets: &'a [u8], some: bool) -> Halves<'a>
        ensures { result ≡ halves_if some octets.now }
    {
        let octets: &[u8] = if some { octets } else { &[] };
        Halves { low: None, octets }
    }
}

impl<'a> Iterator for Halves<'a> {
    ghost use Rattle.std.specs.Iterator.{YieldsFirst, item_count};

    type Item = u8;

    ghost next_gives = { YieldsFirst (λ halves. halves) };

    ghost remaining = { item_count (λ halves. halves) };

    #[tactic(auto, unfolding(crate::specs::Layout::halves))]
    fn next(&mut self) -> Option<u8> {
        if let Some(low) = self.low.take() {
            return Some(low);
        }
        let (octet, rest) = self.octets.split_first()?;
        self.octets = rest;
        self.low = Some(*octet % 16);
        Some(*octet / 16)
    }
}
