// The questions of a kind that are numbered on from one exchange to the next.
ghost use Rattle.std.specs.Prelude.{◌≡◌, None};
ghost use Rattle.reports.specs.Effects.{Did};
ghost use Rattle.exchange.specs.Slots.{numbered_begun};

use crate::exchange::Exchange;
use crate::inquiry::Inquiry;
use crate::limits::Limits;
use crate::slots::begin_in;
use frames::number::Number;
use frames::refusal::Refusal;
use lines::line::Line;
use reports::report::Report;

// The exchange that runs, and the number of the next question. The fields are open, since nothing has to hold between them.
#[derive(Clone, Copy, Drop)]
pub struct Numbered<Q> {
    pub running: Option<Exchange<Q>>,
    pub next: Number,
}

impl<Q: Inquiry> Numbered<Q> {
    // None runs, and the first question has number 0.
    pub fn new() -> Numbered<Q>
        ensures { result ≡ record { running = None; next = 0 } }
    {
        Numbered {
            running: None,
            next: Number::first(),
        }
    }

    // A question is asked for the first time, where none of its kind runs and the line takes its frame. It uses its number up.
    pub fn begin<L: Line>(
        &mut self,
        question: Q,
        limits: Limits,
        line: &mut L,
        report: &mut Report,
    ) -> Result<(), Refusal>
        ensures { Did L.waiting (numbered_begun Q.frames Q.KIND (L.takes line.old) limits question self.old) self.new result line.old line.new report.old report.new }
    {
        begin_in(&mut self.running, question, self.next, limits, line, report)?;
        self.next = self.next.following();
        Ok(())
    }
}
