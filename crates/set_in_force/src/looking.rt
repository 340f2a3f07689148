// Combinations of the set in force, by RFCI.
ghost use Rattle.std.specs.Prelude.{◌≡◌, ◌≤◌, IfSome, slice_get, Some};
ghost use Rattle.sets.specs.Rows.{bits};
ghost use Rattle.set_in_force.specs.Looks.{told, looked_up, rfci_of, highest_of};

use super::in_force::{InForce, index_in};
use super::place::Found;
use super::placing::place_all;
use sets::combination::Combination;
use sets::limits::MOST_BITS;

// What is to know of the combination at a place.
fn tell(index: usize, combination: &Combination) -> Found
    requires bits { bits combination.now.sizes ≤ MOST_BITS }
    ensures is { Some result ≡ told index (Some combination.now) }
    ensures few { result.bits ≤ MOST_BITS }
{
    let (places, bits) = place_all(combination.sizes());
    Found {
        index,
        bits,
        allowed: combination.is_allowed(),
        places,
    }
}

#[tactic(auto, unfolding(crate::specs::Looks::highest_of))]
fn highest_in(rows: &[Combination]) -> u8
    ensures { result ≡ highest_of rows.now }
{
    rows.iter().fold(0, |most, row| most.max(row.rfci()))
}

impl InForce {
    // What is to know of the combination with this RFCI.
    #[tactic(auto, using(crate::proofs::There::told_there, crate::proofs::There::bits_there))]
    pub fn look_up(&self, rfci: u8) -> Option<Found>
        ensures is { result ≡ looked_up rfci self.now.combinations }
        ensures few { IfSome result (λ f. f.bits ≤ 4000) }
    {
        let rows = self.rows();
        let index = index_in(rows, rfci)?;
        Some(tell(index, &rows[index]))
    }

    // The RFCI of the combination at a place of the set.
    pub fn rfci_at(&self, index: usize) -> Option<u8>
        ensures { result ≡ rfci_of (slice_get self.now.combinations index) }
    {
        self.rows().get(index).map(|row| row.rfci())
    }

    // The highest RFCI of the set.
    #[tactic(auto, using(crate::proofs::Highest::highest_low))]
    pub fn highest(&self) -> u8
        ensures is { result ≡ highest_of self.now.combinations }
        ensures few { result ≤ 62 }
    {
        highest_in(self.rows())
    }
}
