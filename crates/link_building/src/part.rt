// The part of a set that one link bears: at most eight combinations, and what the set was opened with.

use sets::combination::Combination;
use sets::opening::Opening;
use std::marker::Model;

// The combinations that one link bears at most.
pub(crate) const MOST_ROWS: usize = 8;

#[derive(Drop)]
pub(crate) struct Part<'a> {
    pub(crate) opening: Opening,
    pub(crate) rows: &'a [Combination],
}

impl<'a> Model for Part<'a> {
    ghost use Rattle.std.specs.Prelude.{◌≡◌, ◌≤◌, true, length};
    ghost use Rattle.sets.specs.Rows.{sound};
    ghost use Rattle.sets.specs.Contents.{Contents};
    ghost use Rattle.sets.specs.declared.limits.TheConstants.{MOST_SUBFLOWS};
    ghost use Rattle.link_building.specs.declared.part.TheConstants.{MOST_ROWS};

    ghost Value = { Contents };

    ghost view = { λ p. record { opening = p.opening; combinations = p.rows.now } };

    ghost invariant = { λ p. (length p.rows.now ≤ MOST_ROWS) × (p.opening.subflows ≤ MOST_SUBFLOWS) × (sound p.opening.subflows p.opening.timed p.rows.now ≡ true) };
}
