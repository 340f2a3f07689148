// Subflows placed one behind the other, from bit 0 without gaps.
ghost use Rattle.std.specs.Prelude.{◌≡◌, ◌≤◌, length};
ghost use Rattle.sets.specs.Rows.{bits};
ghost use Rattle.set_in_force.specs.Places.{places_from};

use super::place::{Place, Places};
use frames::row::Row;
use sets::limits::{MOST_BITS, MOST_SUBFLOWS};

// The places of the subflows of these sizes, and their bits in all.
pub(crate) fn place_all(sizes: &[u16]) -> (Places, u16)
    requires few { length sizes.now ≤ MOST_SUBFLOWS }
    requires bits { bits sizes.now ≤ MOST_BITS }
    ensures places { result.0 ≡ places_from 0 sizes.now }
    ensures bits { result.1 ≡ bits sizes.now }
{
    let mut row = Row::new();
    let mut first = 0;
    for size in sizes {
        row.push(Place { first, bits: *size }).unwrap();
        first += *size;
    }
    (Places::new(row), first)
}
