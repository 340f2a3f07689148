// Error events: an end's own, and those that its upper layer reports.
ghost use Rattle.std.specs.Prelude.{◌≡◌, []};
ghost use Rattle.reports.specs.Effects.{Did};
ghost use Rattle.bearer.specs.Errors.{passes_event, tells, cause_of, objects, reported};

use super::Bearer;
use building::question::build_error_event;
use frames::cause::Cause;
use frames::distance::Distance;
use frames::octets::Octets;
use frames::refusal::Refusal;
use lines::line::Line;
use reports::report::Report;
use reports::sending::send;

// The cause by which an error event tells a refusal is its own number: 4 to 20 go back, the others do not.
fn cause_of(refusal: Refusal) -> Option<Cause>
    ensures { result ≡ cause_of refusal }
{
    match refusal.number() {
        value @ 4..=20 => Cause::within(value),
        _ => None,
    }
}

impl Bearer {
    // An error event goes out, and uses up its number.
    fn pass<L: Line>(&mut self, frame: &Octets, line: &mut L, report: &mut Report)
        ensures { Did L.waiting (passes_event (L.takes line.old) frame.now self.old) self.new result line.old line.new report.old report.new }
    {
        send(line, frame, report);
        self.events = self.events.following();
    }

    // An error event of the end's own.
    pub(super) fn tell<L: Line>(&mut self, cause: Cause, line: &mut L, report: &mut Report)
        ensures { Did L.waiting (tells (L.takes line.old) cause self.old) self.new result line.old line.new report.old report.new }
    {
        let frame = build_error_event(self.events, Distance::Here, cause);
        self.pass(&frame, line, report);
    }

    // A received frame is refused. Where the refusal is one that goes back, an error event tells it.
    pub fn object<T, L: Line>(
        &mut self,
        refusal: Refusal,
        line: &mut L,
        report: &mut Report,
    ) -> Result<T, Refusal>
        ensures { Did L.waiting (objects (L.takes line.old) refusal self.old) self.new result line.old line.new [] report.new }
    {
        report.clear();
        if let Some(cause) = cause_of(refusal) {
            self.tell(cause, line, report);
        }
        Err(refusal)
    }

    // An error that an upper layer reports.
    pub fn report_error<L: Line>(
        &mut self,
        cause: u8,
        line: &mut L,
        report: &mut Report,
    ) -> Result<(), Refusal>
        ensures { Did L.waiting (reported (L.takes line.old) cause self.old) self.new result line.old line.new [] report.new }
    {
        report.clear();
        let cause = Cause::new(cause)?;
        let frame = build_error_event(self.events, Distance::Beyond, cause);
        // not by `offer`, whose answer is one step too many here: tried, and the search gives up at its limit
        if !line.takes_length(frame.as_slice().len()) {
            return Err(Refusal::LineDeclines);
        }
        self.pass(&frame, line, report);
        Ok(())
    }
}
