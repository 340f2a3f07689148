// The table inside a draft, a set and a set in force: plain values with no invariant of their own. What holds of them there is `SoundTable`.
ghost use Rattle.std.specs.Prelude.{◌≡◌, ◌<◌, true, [], ◌∷◌, ◌++◌, length};
ghost use Rattle.sets.specs.Rows.{free, marked_at};
ghost use Rattle.sets.specs.Tables.{rows, contents, SoundTable};
ghost use Rattle.sets.specs.Contents.{opened};
ghost use Rattle.sets.specs.Drafts.{admitted_to};

use super::combination::Combination;
use super::limits::MOST_COMBINATIONS;
use super::opening::Opening;
use frames::row::Row;

#[derive(Clone, Copy)]
pub struct Table {
    opening: Opening,
    combinations: Row<Combination, MOST_COMBINATIONS>,
}

impl Table {
    // A table with no combination yet.
    #[tactic(auto, unfolding(crate::specs::Rows::sound))]
    pub(crate) fn blank(opening: Opening) -> Table
        ensures is { contents result ≡ opened opening }
        ensures sound { SoundTable result }
    {
        // that N is 1 to 7 is told by whoever is asked for it
        let _ = opening.subflows();
        Table {
            opening,
            combinations: Row::new(),
        }
    }

    pub fn opening(&self) -> Opening
        ensures { result ≡ self.now.opening }
    {
        self.opening
    }

    pub fn rows(&self) -> &[Combination]
        ensures { result.now ≡ rows self.now }
    {
        self.combinations.as_slice()
    }

    // A combination that may be added goes behind the others.
    pub(crate) fn push(&mut self, combination: Combination)
        requires sound { SoundTable self.old }
        requires admitted { Ok tt ≡ admitted_to (contents self.old) combination }
        ensures rows { rows self.new ≡ rows self.old ++ combination ∷ [] }
        ensures opening { self.new.opening ≡ self.old.opening }
        ensures sound { SoundTable self.new }
    {
        self.combinations.push(combination).unwrap();
    }

    // The combination at a place is allowed or barred; past the last nothing changes.
    #[tactic(auto, using(crate::proofs::Rows::marked_set, crate::proofs::Rows::marked_past))]
    pub fn allow(&mut self, index: usize, allowed: bool)
        ensures rows { rows self.new ≡ marked_at index allowed (rows self.old) }
        ensures opening { self.new.opening ≡ self.old.opening }
        ensures len { length (rows self.new) ≡ length (rows self.old) }
        ensures sound { SoundTable self.old → SoundTable self.new }
    {
        if let Some(mut combination) = self.combinations.get(index) {
            combination.allow(allowed);
            self.combinations.set(index, combination);
        }
    }
}
