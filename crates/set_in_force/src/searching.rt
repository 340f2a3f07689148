// Combinations of the set in force, by their sizes.
ghost use Rattle.std.specs.Prelude.{◌≡◌, MatchOption};
ghost use Rattle.set_in_force.specs.Looks.{Holds, NoneOf, Searched};

use super::in_force::InForce;
use frames::refusal::Refusal;
use sets::combination::Combination;

// Some combination of exactly these sizes.
fn find_sizes(rows: &[Combination], sizes: &[u16]) -> Option<Combination>
    ensures { MatchOption result (NoneOf sizes.now rows.now) (λ c. Holds c.rfci sizes.now rows.now) }
{
    rows.iter().find(|row| row.sizes() == sizes).copied()
}

impl InForce {
    // The RFCI of some combination of exactly these sizes: which of several is left open.
    pub fn search(&self, sizes: &[u16]) -> Result<u8, Refusal>
        ensures { Searched sizes.now self.now.combinations result }
    {
        find_sizes(self.rows(), sizes)
            .map(|row| row.rfci())
            .ok_or(Refusal::NoSuchSizes)
    }
}
