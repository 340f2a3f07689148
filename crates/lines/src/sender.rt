// A client of any line: it hands frames over, tells which were taken, and lets the far side of the line take them out.
ghost use Rattle.std.specs.Prelude.{◌≡◌, length};
ghost use Rattle.lines.specs.Runs.{put, take, Step, Conserves};
ghost use Rattle.lines.specs.Sent.{said, report, answer_of};

use crate::line::Line;
use frames::refusal::Refusal;
use std::marker::Model;

// What became of a frame that was put, with its octets: handed over, or refused.
pub type Sending<'a> = Result<&'a [u8], &'a [u8]>;

#[derive(Drop)]
pub struct Sender<L: Line> {
    line: L,
}

// It means the line.
impl<L: Line> Model for Sender<L> {
    ghost Value = { L };

    ghost view = { λ s. s.line };
}

impl<L: Line> Sender<L> {
    // Over any line, whatever waits on it: no run of puts and takes that begins here loses a frame, makes one up or changes their order.
    #[tactic(auto, using(crate::proofs::Whole::conserves))]
    pub fn new(line: L) -> Sender<L>
        ensures line { result ≡ line }
        ensures runs { Conserves L.Line.waiting L.Line.takes result }
    {
        Sender { line }
    }

    pub fn send<'a>(&mut self, frame: &'a [u8]) -> Sending<'a>
        ensures report { said result ≡ report (L.Line.takes self.old (length frame.now)) frame.now }
        ensures line { Step L.Line.waiting L.Line.takes self.old (put frame.now (answer_of result)) self.new }
    {
        self.line.put(frame).map(|()| frame).map_err(|_| frame)
    }

    pub fn takes_length(&self, length: usize) -> bool
        ensures { result ≡ L.Line.takes self.now length }
    {
        self.line.takes_length(length)
    }

    pub fn take(&mut self, out: &mut [u8]) -> Result<Option<usize>, Refusal>
        ensures { Step L.Line.waiting L.Line.takes self.old (take out.old out.new result) self.new }
    {
        self.line.take(out)
    }
}
