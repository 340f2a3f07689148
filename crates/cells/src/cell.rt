// A cell has room for one frame, of which no more than its octets is copied: an array with a length, since a line uses no heap.
// Tried as a row of frames, which is made anew with blanks behind: proved, and nearly four times slower with short frames.
ghost use Rattle.std.specs.Prelude.{◌≡◌, ◌≤◌, [], ◌++◌, length, drop};
ghost use Rattle.frames.specs.Frame.{longest};

use frames::octets::LONGEST;
use std::marker::Model;

#[derive(Drop)]
pub(crate) struct Cell {
    octets: [u8; LONGEST],
    len: usize,
}

impl Model for Cell {
    ghost use Rattle.std.specs.Prelude.{◌≡◌, ℕ, ◌≤◌, List, take, length};
    ghost use Rattle.frames.specs.Frame.{longest};

    ghost Value = { List ℕ };

    ghost view = { λ c. take c.len c.octets };

    ghost invariant = { λ c. (c.len ≤ longest) × (length c.octets ≡ longest) };
}

impl Cell {
    pub(crate) fn empty() -> Cell
        ensures { result ≡ [] }
    {
        Cell {
            octets: [0; LONGEST],
            len: 0,
        }
    }

    pub(crate) fn fill(&mut self, frame: &[u8])
        requires { length frame.now ≤ longest }
        ensures { self.new ≡ frame.now }
    {
        let n = frame.len();
        self.octets[0..n].copy_from_slice(frame);
        self.len = n;
    }

    pub(crate) fn read(&self, out: &mut [u8; LONGEST]) -> usize
        ensures length { result ≡ length self.now }
        ensures out { out.new ≡ self.now ++ drop result out.old }
        ensures few { length self.now ≤ longest }
    {
        let n = self.len;
        out[0..n].copy_from_slice(&self.octets[0..n]);
        n
    }
}
