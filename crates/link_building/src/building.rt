// The links of a closed set.
ghost use Rattle.std.specs.Prelude.{◌≡◌, ◌≤◌};
ghost use Rattle.link_building.specs.Wire.{links_of, link_at, part_of};

use super::part::{MOST_ROWS, Part};
use super::payload::Payload;
use sets::closed::Set;

// How many links the set is sent in: eight combinations a link.
pub fn link_count(set: &Set) -> u8
    ensures is { result ≡ links_of set.now.combinations }
    ensures some { 1 ≤ result }
    ensures few { result ≤ 4 }
{
    set.rows().len().div_ceil(MOST_ROWS) as u8
}

// The part of the set that a link bears, if the set is sent in so many.
fn part_at(set: &Set, number: u8) -> Option<Part<'_>>
    ensures { result ≡ part_of number set.now }
{
    let rows = set.rows().chunks(MOST_ROWS).nth(number as usize)?;
    Some(Part {
        opening: set.opening(),
        rows,
    })
}

// The payload of link `number`, counted from 0; none past the last.
pub fn link_payload(set: &Set, number: u8) -> Option<Payload>
    ensures { result ≡ link_at number set.now }
{
    let count = link_count(set);
    let part = part_at(set, number)?;
    Some(part.payload(number + 1 < count))
}
