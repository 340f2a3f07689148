// Drafts closed into sets. What links and data rely on holds of every set, since closing a draft, or what one said, is the only way to one.
ghost use Rattle.std.specs.Prelude.{◌≡◌};
ghost use Rattle.sets.specs.Closing.{closed_by, closing, placed_by};
ghost use Rattle.sets.specs.Contents.{ClosedSet};
ghost use Rattle.sets.specs.Tables.{contents, SoundTable};

use super::combination::Combination;
use super::draft::Draft;
use super::drafted::Drafted;
use super::opening::Opening;
use super::table::Table;
use frames::refusal::Refusal;
use std::marker::Model;

// An empty draft that was not closed: its opening values are handed back.
#[derive(Clone, Copy, PartialEq, Eq, Debug)]
pub struct Unclosed {
    pub opening: Opening,
    pub refusal: Refusal,
}

// A closed set.
#[derive(Clone, Copy)]
pub struct Set {
    table: Table,
}

impl Model for Set {
    ghost use Rattle.std.specs.Prelude.{◌≤◌, length};
    ghost use Rattle.sets.specs.Contents.{Contents};
    ghost use Rattle.sets.specs.Tables.{rows, contents, table_of, FreeTable};

    ghost Value = { Contents };

    ghost view = { λ s. contents s.table };

    ghost invariant = { λ s. FreeTable s.table × (1 ≤ length (rows s.table)) };

    ghost inverse = { λ c. record { table = table_of c } };
}

impl Set {
    pub fn opening(&self) -> Opening
        ensures { result ≡ self.now.opening }
    {
        self.table.opening()
    }

    // The combinations, the first one first.
    pub fn rows(&self) -> &[Combination]
        ensures rows { result.now ≡ self.now.combinations }
        ensures closed { ClosedSet self.now }
    {
        self.table.rows()
    }

    // The table of the set, which is no set any more.
    pub fn into_table(self) -> Table
        ensures is { contents result ≡ self }
        ensures sound { SoundTable result }
        ensures closed { ClosedSet self }
    {
        let Set { table } = self;
        table
    }
}

impl Draft {
    // The closed set goes into `place`, which is lent, so that no table moves in an answer that may refuse.
    // Where the draft is empty, `place` stays as it was.
    pub fn close(self, place: &mut Option<Set>) -> Result<(), Unclosed>
        ensures answer { result ≡ closed_by self }
        ensures place { place.new ≡ placed_by self place.old }
    {
        let table = self.into_table();
        if table.rows().is_empty() {
            return Err(Unclosed {
                opening: table.opening(),
                refusal: Refusal::NoCombination,
            });
        }
        *place = Some(Set { table });
        Ok(())
    }

    // The same of a copy, for whoever keeps the draft until it is closed: an empty one need not be opened again.
    pub fn close_copy(&self, place: &mut Option<Set>) -> Result<(), Refusal>
        ensures answer { result ≡ closing self.now }
        ensures place { place.new ≡ placed_by self.now place.old }
    {
        self.drafted().close(place)
    }
}

impl Drafted {
    // The same of a draft that says this. The table is copied once, right into the set.
    pub fn close(&self, place: &mut Option<Set>) -> Result<(), Refusal>
        ensures answer { result ≡ closing self.now }
        ensures place { place.new ≡ placed_by self.now place.old }
    {
        if self.rows().is_empty() {
            return Err(Refusal::NoCombination);
        }
        *place = Some(Set { table: self.table });
        Ok(())
    }
}
