// Octets that are written behind others and read from the oldest on, round and round.
ghost use Rattle.std.specs.Prelude.{◌≡◌, ◌+◌, ◌-◌, ◌≤◌, [], ◌∷◌, ◌++◌, length, take, drop};
ghost use Rattle.ring.specs.Round.{greatest, held};

use crate::size::GREATEST;
use lines::turning::Turning;
use std::marker::Model;

// A line has no heap: an array of the greatest size.
#[derive(Drop)]
pub(crate) struct Circle {
    octets: [u8; GREATEST],
    turning: Turning,
}

impl Model for Circle {
    ghost use Rattle.ring.specs.Round.{Held, held_in, Sized};

    ghost Value = { Held };

    ghost view = { λ c. held_in c.octets c.turning };

    ghost invariant = { λ c. Sized c.turning };
}

impl Circle {
    pub(crate) fn empty(size: usize) -> Circle
        requires some { 1 ≤ size }
        requires most { size ≤ greatest }
        ensures { result ≡ held size [] }
    {
        Circle {
            octets: [0; GREATEST],
            turning: Turning::new(size),
        }
    }

    #[tactic(auto, using(lines::proofs::Turns::length_window))]
    pub(crate) fn used(&self) -> usize
        ensures { result ≡ length self.now.content }
    {
        self.turning.used()
    }

    #[tactic(auto, using(lines::proofs::Turns::length_window))]
    pub(crate) fn left(&self) -> usize
        ensures { result ≡ self.now.size - length self.now.content }
    {
        self.turning.left()
    }

    // A pair of octets, apart from `write`: tried as `self.write(&[high, low])`, by which a line is slower by an eighth with short
    // frames and by a tenth with frames of 40 octets, since each frame has a pair for its length.
    pub(crate) fn write_pair(&mut self, high: u8, low: u8)
        requires { length self.old.content + 2 ≤ self.old.size }
        ensures { self.new ≡ held self.old.size (self.old.content ++ high ∷ low ∷ []) }
    {
        let second = self.turning.at(self.turning.used() + 1);
        let first = self.turning.gain(2).unwrap();
        self.octets[first] = high;
        self.octets[second] = low;
    }

    // The two oldest octets, apart from `read`: through it a line is slower by a tenth with short frames, and by a sixth with
    // frames of 40 octets.
    pub(crate) fn read_pair(&mut self) -> (u8, u8)
        requires { 2 ≤ length self.old.content }
        ensures { self.old ≡ held self.new.size (result.0 ∷ result.1 ∷ self.new.content) }
    {
        let second = self.turning.at(1);
        let first = self.turning.lose(2).unwrap();
        (self.octets[first], self.octets[second])
    }

    // In one part, or in two where they pass the end of the store.
    pub(crate) fn write(&mut self, octets: &[u8])
        requires { length self.old.content + length octets.now ≤ self.old.size }
        ensures { self.new ≡ held self.old.size (self.old.content ++ octets.now) }
    {
        let n = octets.len();
        let next = self.turning.gain(n).unwrap();
        let end = self.turning.size();
        let left = end - next;
        if n <= left {
            self.octets[next..next + n].copy_from_slice(octets);
        } else {
            self.octets[next..end].copy_from_slice(&octets[0..left]);
            self.octets[0..n - left].copy_from_slice(&octets[left..n]);
        }
    }

    // The oldest n octets, in one part or in two. This copies out, `write` copies in: a common part would take both ends of
    // each copy, and be no plainer.
    pub(crate) fn read(&mut self, out: &mut [u8], n: usize)
        requires some { n ≤ length self.old.content }
        requires room { n ≤ length out.old }
        ensures left { self.new ≡ held self.old.size (drop n self.old.content) }
        ensures out { out.new ≡ take n self.old.content ++ drop n out.old }
    {
        let first = self.turning.lose(n).unwrap();
        let end = self.turning.size();
        let left = end - first;
        if n <= left {
            out[0..n].copy_from_slice(&self.octets[first..first + n]);
        } else {
            out[0..left].copy_from_slice(&self.octets[first..end]);
            out[left..n].copy_from_slice(&self.octets[0..n - left]);
        }
    }
}
