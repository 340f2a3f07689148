// What a draft says, by value. It is copied freely, for whoever keeps the combinations so far: to go on with them a draft is made of it again.
ghost use Rattle.std.specs.Prelude.{◌≡◌};
ghost use Rattle.sets.specs.Contents.{SoundDraft};

use super::combination::Combination;
use super::opening::Opening;
use super::table::Table;
use std::marker::Model;

#[derive(Clone, Copy)]
pub struct Drafted {
    pub(crate) table: Table,
}

impl Model for Drafted {
    ghost use Rattle.sets.specs.Contents.{Contents};
    ghost use Rattle.sets.specs.Tables.{contents, table_of, FreeTable};

    ghost Value = { Contents };

    ghost view = { λ d. contents d.table };

    ghost invariant = { λ d. FreeTable d.table };

    ghost inverse = { λ c. record { table = table_of c } };
}

impl Drafted {
    pub fn opening(&self) -> Opening
        ensures { result ≡ self.now.opening }
    {
        self.table.opening()
    }

    // The combinations so far, the first one first.
    pub fn rows(&self) -> &[Combination]
        ensures rows { result.now ≡ self.now.combinations }
        ensures sound { SoundDraft self.now }
    {
        self.table.rows()
    }
}
