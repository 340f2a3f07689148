// A line of hexadecimal that comes byte by byte, read into fixed memory however long it is.
ghost use Rattle.std.specs.Prelude.{◌≡◌, ℕ, List, [], ◌∷◌, ◌++◌};
ghost use Rattle.showing.specs.Shown.{shown, gathered, joined};

use frames::header::{Header, read_header};
use frames::hex::read_pair;
use frames::octets::{LONGEST, Octets};
use frames::refusal::Refusal;

// The most digits of which the octets are kept: those of the longest frame. A line that is longer is refused.
pub const KEPT: usize = 2 * LONGEST;

#[derive(Clone, Copy, PartialEq, Eq, Debug)]
pub struct Gathered {
    // the octets of the pairs that came, or why there are none
    frame: Result<Octets, Refusal>,
    // the byte that waits for the other one of its pair
    first: Option<u8>,
}

impl Gathered {
    #[tactic(auto, unfolding(frames::specs::Hex::octets_in))]
    pub fn new() -> Gathered
        ensures { result ≡ gathered [] }
    {
        Gathered {
            frame: Ok(Octets::new()),
            first: None,
        }
    }

    // One byte more, whatever it is.
    #[tactic(auto, using(crate::proofs::Bytewise::second))]
    pub fn push(&mut self, byte: u8)
        ensures { (line : List ℕ) → self.old ≡ gathered line → self.new ≡ gathered (line ++ byte ∷ []) }
    {
        match self.first {
            None => self.first = Some(byte),
            Some(first) => {
                self.first = None;
                join(&mut self.frame, read_pair(first, byte));
            }
        }
    }

    // What is shown of the line that was gathered, as if it had come whole.
    pub fn show(&self) -> Result<Header, Refusal>
        ensures { (line : List ℕ) → self.now ≡ gathered line → result ≡ shown line }
    {
        if self.first.is_some() {
            return Err(Refusal::Hexadecimal);
        }
        match &self.frame {
            Ok(octets) => read_header(octets.as_slice()),
            Err(refusal) => Err(*refusal),
        }
    }
}

// One octet more. A strange digit is told before all else, and what is too long stays so.
// In place, not by `?`: a frame that comes out by value is copied at each octet, and long lines took seven times as long. One match of both took 7 % longer.
// A refusal is written over alone: with the whole frame, lines of strange digits took twice as long.
fn join(frame: &mut Result<Octets, Refusal>, octet: Result<u8, Refusal>)
    ensures { frame.new ≡ joined frame.old octet }
{
    match octet {
        Ok(octet) => {
            if let Ok(octets) = frame {
                if let Err(refusal) = octets.push(octet) {
                    *frame = Err(refusal);
                }
            }
        }
        Err(refusal) => match frame {
            Ok(_) => *frame = Err(refusal),
            Err(told) => *told = refusal,
        },
    }
}

#[cfg(test)]
mod tests {
    use super::*;

    // So many digits are a frame's; a pair more is too much for one.
    #[test]
    fn kept(rt: HostRuntime) {
        let mut line = Gathered::new();
        for digit in &[b'0'; KEPT] {
            line.push(*digit);
        }
        assert!(rt; line.show().is_ok());
        line.push(b'0');
        assert!(rt; line.show() == Err(Refusal::Hexadecimal));
        line.push(b'0');
        assert!(rt; line.show() == Err(Refusal::TooLong));
    }
}
