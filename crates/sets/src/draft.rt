// A set that is being made. It is moved by closing it.
ghost use Rattle.std.specs.Prelude.{◌≡◌, ◌≤◌, true, length, if◌then◌else◌, Ok};
ghost use Rattle.sets.specs.Rows.{bits, fresh, entered};
ghost use Rattle.sets.specs.Tables.{contents, FreeTable};
ghost use Rattle.sets.specs.Contents.{opened, SoundDraft};
ghost use Rattle.sets.specs.Drafts.{sized, admitted_to, added};

use super::combination::Combination;
use super::drafted::Drafted;
use super::limits::{HIGHEST_IPTI, HIGHEST_RFCI, MOST_BITS, MOST_COMBINATIONS, MOST_SUBFLOWS};
use super::opening::Opening;
use super::table::Table;
use frames::refusal::Refusal;
use std::marker::Model;

#[derive(Drop)]
pub struct Draft {
    table: Table,
}

impl Model for Draft {
    ghost use Rattle.sets.specs.Contents.{Contents};
    ghost use Rattle.sets.specs.Tables.{contents, FreeTable};

    ghost Value = { Contents };

    ghost view = { λ d. contents d.table };

    ghost invariant = { λ d. FreeTable d.table };
}

// The bits of sizes, at most seven of them.
#[tactic(auto, unfolding(crate::specs::Rows::bits))]
fn total(sizes: &[u16]) -> u32
    requires { length sizes.now ≤ MOST_SUBFLOWS }
    ensures { result ≡ bits sizes.now }
{
    sizes.iter().map(|size| *size as u32).sum()
}

// The greatest IPTI: without TI there is none but 0.
fn most_ipti(timed: bool) -> u8
    ensures { result ≡ (if timed then HIGHEST_IPTI else 0) }
{
    if timed { HIGHEST_IPTI } else { 0 }
}

// Whether an IPTI and sizes are such as the opening values ask for.
fn is_sized(opening: Opening, ipti: u8, sizes: &[u16]) -> bool
    ensures { result ≡ sized opening.subflows opening.timed ipti sizes.now }
{
    sizes.len() == opening.subflows() as usize
        && ipti <= most_ipti(opening.is_timed())
        && total(sizes) <= MOST_BITS
}

// Whether none of the combinations has this RFCI.
#[tactic(auto, unfolding(crate::specs::Rows::fresh))]
fn is_fresh(rows: &[Combination], rfci: u8) -> bool
    ensures { result ≡ fresh rfci rows.now }
{
    rows.iter().all(|row| row.rfci() != rfci)
}

impl Draft {
    // A draft with no combination yet.
    #[tactic(auto, unfolding(crate::specs::Rows::free))]
    pub fn open(opening: Opening) -> Draft
        ensures { result ≡ opened opening }
    {
        Draft {
            table: Table::blank(opening),
        }
    }

    pub fn opening(&self) -> Opening
        ensures { result ≡ self.now.opening }
    {
        self.table.opening()
    }

    // The combinations so far, the first one first.
    pub fn rows(&self) -> &[Combination]
        ensures rows { result.now ≡ self.now.combinations }
        ensures sound { SoundDraft self.now }
    {
        self.table.rows()
    }

    // Another draft that says the same.
    pub fn copied(&self) -> Draft
        ensures { result ≡ self.now }
    {
        Draft { table: self.table }
    }

    // What it says, to be kept.
    pub fn drafted(&self) -> Drafted
        ensures { result ≡ self.now }
    {
        Drafted { table: self.table }
    }

    // A draft that says what was kept.
    pub fn resume(drafted: &Drafted) -> Draft
        ensures { result ≡ drafted.now }
    {
        Draft {
            table: drafted.table,
        }
    }

    // The table of the draft, which is no draft any more.
    pub(crate) fn into_table(self) -> Table
        ensures is { contents result ≡ self }
        ensures free { FreeTable result }
    {
        self.table
    }

    // Whether a combination may be added, and why not.
    #[tactic(auto, unfolding(crate::specs::Drafts::admitted))]
    fn admit(&self, rfci: u8, ipti: u8, sizes: &[u16]) -> Result<(), Refusal>
        ensures { result ≡ admitted_to self.now (entered rfci ipti sizes.now) }
    {
        if !is_sized(self.opening(), ipti, sizes) {
            return Err(Refusal::Dimensions);
        }
        if rfci > HIGHEST_RFCI || !is_fresh(self.rows(), rfci) {
            return Err(Refusal::RfciTaken);
        }
        if self.rows().len() >= MOST_COMBINATIONS {
            return Err(Refusal::TooManyCombinations);
        }
        Ok(())
    }

    // A combination that may be added goes behind the others, allowed.
    fn enter(&mut self, rfci: u8, ipti: u8, sizes: &[u16])
        requires { Ok tt ≡ admitted_to self.old (entered rfci ipti sizes.now) }
        ensures { self.new ≡ added (Ok tt) self.old (entered rfci ipti sizes.now) }
    {
        self.table.push(Combination::new(rfci, ipti, sizes));
    }

    // A combination is added, or it is refused and the draft stays as it was. Its values come one by one, since they make no combination before they are admitted.
    pub fn add(&mut self, rfci: u8, ipti: u8, sizes: &[u16]) -> Result<(), Refusal>
        ensures answer { result ≡ admitted_to self.old (entered rfci ipti sizes.now) }
        ensures draft { self.new ≡ added result self.old (entered rfci ipti sizes.now) }
    {
        self.admit(rfci, ipti, sizes)?;
        self.enter(rfci, ipti, sizes);
        Ok(())
    }
}
