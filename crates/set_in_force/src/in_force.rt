// A set in force: a closed set whose combinations are marked as allowed or barred.
ghost use Rattle.std.specs.Prelude.{◌≡◌, ◌<◌, true, length, IfSome};
ghost use Rattle.sets.specs.Rows.{Row, free};
ghost use Rattle.sets.specs.Contents.{SoundSet};
ghost use Rattle.set_in_force.specs.Looks.{index_of};
ghost use Rattle.set_in_force.specs.Marks.{marked_in};

use sets::closed::Set;
use sets::combination::Combination;
use sets::opening::Opening;
use sets::table::Table;
use std::marker::Model;

#[derive(Clone, Copy)]
pub struct InForce {
    table: Table,
}

impl Model for InForce {
    ghost use Rattle.std.specs.Prelude.{◌≤◌, length};
    ghost use Rattle.sets.specs.Contents.{Contents};
    ghost use Rattle.sets.specs.Tables.{rows, contents, table_of, SoundTable};

    ghost Value = { Contents };

    ghost view = { λ f. contents f.table };

    ghost invariant = { λ f. SoundTable f.table × (1 ≤ length (rows f.table)) };

    ghost inverse = { λ c. record { table = table_of c } };
}

// Which of the combinations has this RFCI.
pub(crate) fn index_in(rows: &[Combination], rfci: u8) -> Option<usize>
    ensures is { result ≡ index_of rfci rows.now }
    ensures within { IfSome result (λ i. i < length rows.now) }
{
    rows.iter().position(|row| row.rfci() == rfci)
}

impl InForce {
    // The set as it was closed, with every combination allowed.
    pub fn from_set(set: Set) -> InForce
        ensures same { result ≡ set }
        ensures allowed { free result.combinations ≡ true }
        ensures sound { SoundSet result }
    {
        InForce {
            table: set.into_table(),
        }
    }

    pub fn opening(&self) -> Opening
        ensures { result ≡ self.now.opening }
    {
        self.table.opening()
    }

    // The combinations, the first one first.
    pub fn rows(&self) -> &[Combination]
        ensures rows { result.now ≡ self.now.combinations }
        ensures sound { SoundSet self.now }
    {
        self.table.rows()
    }

    // The combination with this RFCI is allowed or barred; where the set has none, nothing changes.
    #[tactic(auto, using(crate::proofs::Marking::table_past))]
    pub fn mark(&mut self, rfci: u8, allowed: bool)
        ensures { self.new ≡ marked_in rfci allowed self.old }
    {
        if let Some(index) = index_in(self.table.rows(), rfci) {
            self.table.allow(index, allowed);
        }
    }
}
