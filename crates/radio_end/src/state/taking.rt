// Frames leave by the line.
ghost use Rattle.radio_end.specs.Runs.{Step, take};

use super::RadioEnd;
use frames::refusal::Refusal;
use lines::line::Line;

impl<L: Line> RadioEnd<L> {
    // Moves the oldest waiting frame to the start of `out`, and tells its length.
    pub fn take(&mut self, out: &mut [u8]) -> Result<Option<usize>, Refusal>
        ensures { Step L.waiting L.takes self.old (take out.old out.new result) self.new }
    {
        self.line.take(out)
    }
}
