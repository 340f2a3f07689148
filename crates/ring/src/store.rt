// The frames in a ring: each as its length in two octets, high first, and its octets.
ghost use Rattle.std.specs.Prelude.{◌≡◌, ◌+◌};
ghost use Rattle.ring.specs.Round.{least};
ghost use Rattle.ring.specs.Packed.{room};

use crate::circle::Circle;
use crate::size::RingSize;
use frames::octets::LONGEST;
use frames::refusal::Refusal;
use lines::length::fits;
use lines::store::Store;
use std::marker::Model;

#[derive(Drop)]
pub struct RingStore {
    octets: Circle,
}

impl Model for RingStore {
    ghost use Rattle.ring.specs.Packed.{Standing, standing, Sound};

    ghost Value = { Standing };

    ghost view = { λ s. standing s.octets };

    ghost invariant = { λ s. Sound s.octets };
}

impl Store for RingStore {
    ghost use Rattle.std.proofs.Common.{arith, rules};

    type Size = RingSize;

    ghost places = { λ n. n };

    ghost size = { λ s. s.spare + least };

    ghost frames = { λ s. s.frames };

    ghost room = { room };

    ghost spacious = { first_of (Prim.search rules, Prim.grind arith) };

    ghost shorter = { first_of (Prim.search rules, Prim.grind arith) };

    ghost sized = { first_of (Prim.search rules, Prim.grind arith) };

    ghost freed = { first_of (Prim.search rules, Prim.grind arith) };

    fn empty(wanted: RingSize) -> RingStore {
        RingStore {
            octets: Circle::empty(wanted.places()),
        }
    }

    #[tactic(auto, using(crate::proofs::Packs::used_cost))]
    fn has_room(&self, length: usize) -> bool {
        fits(length) && length + 2 <= self.octets.left()
    }

    fn push(&mut self, frame: &[u8]) -> Result<(), Refusal> {
        let n = frame.len();
        if !self.has_room(n) {
            return Err(Refusal::LineDeclines);
        }
        self.octets.write_pair((n / 256) as u8, (n % 256) as u8);
        self.octets.write(frame);
        Ok(())
    }

    fn pop(&mut self, out: &mut [u8]) -> Result<Option<usize>, Refusal> {
        let start = out
            .first_chunk_mut::<LONGEST>()
            .ok_or(Refusal::BufferTooSmall)?;
        let none = self.octets.used() == 0;
        if none {
            return Ok(None);
        }
        let (high, low) = self.octets.read_pair();
        let n = high as usize * 256 + low as usize;
        self.octets.read(start, n);
        Ok(Some(n))
    }
}
