// The cells, round and round: each is filled in place with one frame, and stays there until it is read.
ghost use Rattle.std.specs.Prelude.{◌≡◌, suc};
ghost use Rattle.cells.specs.Standing.{free};

use crate::cell::Cell;
use crate::count::{CellCount, MOST};
use frames::octets::LONGEST;
use frames::refusal::Refusal;
use lines::length::fits;
use lines::store::Store;
use lines::turning::Turning;
use std::array;
use std::marker::Model;

// A line has no heap: an array of the greatest size.
#[derive(Drop)]
pub struct CellStore {
    cells: [Cell; MOST],
    turning: Turning,
}

impl Model for CellStore {
    ghost use Rattle.cells.specs.Standing.{Standing, standing, Sound};

    ghost Value = { Standing };

    ghost view = { λ s. standing s.cells s.turning };

    ghost invariant = { λ s. Sound s.cells s.turning };
}

impl Store for CellStore {
    ghost use Rattle.std.proofs.Common.{arith, rules};

    type Size = CellCount;

    ghost places = { λ n. n };

    ghost size = { λ s. suc s.more };

    ghost frames = { λ s. s.frames };

    ghost room = { free };

    ghost spacious = { first_of (Prim.search rules, Prim.grind arith) };

    ghost shorter = { first_of (Prim.search rules, Prim.grind arith) };

    ghost sized = { first_of (Prim.search rules, Prim.grind arith) };

    ghost freed = { first_of (Prim.search rules, Prim.grind arith) };

    fn empty(wanted: CellCount) -> CellStore {
        CellStore {
            cells: array::from_fn(|_| Cell::empty()),
            turning: Turning::new(wanted.places()),
        }
    }

    #[tactic(auto, using(lines::proofs::Turns::length_window))]
    fn has_room(&self, length: usize) -> bool {
        fits(length) && self.turning.left() > 0
    }

    fn push(&mut self, frame: &[u8]) -> Result<(), Refusal> {
        if !self.has_room(frame.len()) {
            return Err(Refusal::LineDeclines);
        }
        let next = self.turning.gain(1).unwrap();
        self.cells[next].fill(frame);
        Ok(())
    }

    fn pop(&mut self, out: &mut [u8]) -> Result<Option<usize>, Refusal> {
        let start = out
            .first_chunk_mut::<LONGEST>()
            .ok_or(Refusal::BufferTooSmall)?;
        // `map` was tried: its closure sees no bound of `first`, so it needs a clause of its own that it is the place of a cell
        let Some(first) = self.turning.lose(1) else {
            return Ok(None);
        };
        Ok(Some(self.cells[first].read(start)))
    }
}
