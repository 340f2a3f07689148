// The steps of an exchange, in place: each tells whether it goes on. That is a `bool`, since an end is no refusal:
// the call that brought it succeeds, and the report names how the exchange ended. One that ended stays as it stood.
ghost use Rattle.std.specs.Prelude.{◌≡◌, false};
ghost use Rattle.reports.specs.Effects.{Did};
ghost use Rattle.exchange.specs.Asking.{announced, sent, kept, again, ticked, turned, heard};
ghost use Rattle.exchange.specs.declared.answer.Turn.TheVariants.{Onward};

use crate::answer::Turn;
use crate::exchange::Exchange;
use crate::inquiry::Inquiry;
use crate::limits::Limits;
use frames::refusal::Refusal;
use lines::line::Line;
use reports::ending::Ending;
use reports::happening::Happening;
use reports::report::Report;
use reports::sending::send;

impl<Q: Inquiry> Exchange<Q> {
    // Names its start, and sends the first frame.
    pub fn start<L: Line>(&self, line: &mut L, report: &mut Report)
        ensures { Did L.waiting (announced Q.frames Q.KIND (L.takes line.old) self.now) result result line.old line.new report.old report.new }
    {
        report.note(Happening::Started(Q::KIND));
        self.ask(line, report);
    }

    // Sends the present frame.
    pub fn ask<L: Line>(&self, line: &mut L, report: &mut Report)
        ensures { Did L.waiting (sent Q.frames (L.takes line.old) self.now) result result line.old line.new report.old report.new }
    {
        let frame = self.question.frame(self.number);
        send(line, &frame, report);
    }

    // Sends the present frame again, or ends.
    fn repeat<L: Line>(
        &mut self,
        limits: Limits,
        ending: Ending,
        line: &mut L,
        report: &mut Report,
    ) -> bool
        ensures does { Did L.waiting (again Q.frames Q.KIND (L.takes line.old) limits ending self.old) (kept result self.new) tt line.old line.new report.old report.new }
        ensures left { result ≡ false → self.new ≡ self.old }
    {
        if self.repeats < limits.repeats {
            self.ticks = limits.ticks;
            self.repeats += 1;
            self.ask(line, report);
            return true;
        }
        report.note(Happening::Ended(Q::KIND, ending));
        false
    }

    // One tick.
    pub fn tick<L: Line>(&mut self, limits: Limits, line: &mut L, report: &mut Report) -> bool
        ensures does { Did L.waiting (ticked Q.frames Q.KIND (L.takes line.old) limits Q.UNANSWERED self.old) (kept result self.new) tt line.old line.new report.old report.new }
        ensures left { result ≡ false → self.new ≡ self.old }
    {
        if self.ticks > 1 {
            self.ticks -= 1;
            return true;
        }
        self.repeat(limits, Q::UNANSWERED, line, report)
    }

    // The next frame, or the end.
    fn go_on<L: Line>(&mut self, limits: Limits, line: &mut L, report: &mut Report) -> bool
        ensures does { Did L.waiting (turned Q.frames Q.KIND (L.takes line.old) limits Q.follows Q.DECLINED Onward self.old) (kept result self.new) tt line.old line.new report.old report.new }
        ensures left { result ≡ false → self.new ≡ self.old }
    {
        if self.question.more(self.number) {
            self.ticks = limits.ticks;
            self.repeats = 0;
            self.number += 1;
            self.ask(line, report);
            return true;
        }
        report.note(Happening::Ended(Q::KIND, Ending::Done));
        false
    }

    // An answer to the present frame, by what it leads to. Whoever calls this has compared the answer's number with the present frame's, as `hear` does.
    pub fn turn<L: Line>(
        &mut self,
        turn: Turn,
        limits: Limits,
        line: &mut L,
        report: &mut Report,
    ) -> bool
        ensures does { Did L.waiting (turned Q.frames Q.KIND (L.takes line.old) limits Q.follows Q.DECLINED turn self.old) (kept result self.new) tt line.old line.new report.old report.new }
        ensures left { result ≡ false → self.new ≡ self.old }
    {
        match turn {
            Turn::Onward => self.go_on(limits, line, report),
            Turn::Again => self.repeat(limits, Q::DECLINED, line, report),
            Turn::Stop(ending) => {
                report.note(Happening::Ended(Q::KIND, ending));
                false
            }
        }
    }

    // An answer with a number, by what it leads to and by how the call that brought it comes out.
    // One with another number than the present frame's changes nothing, not even the ticks.
    pub fn hear<A: Drop, L: Line>(
        &mut self,
        turn: Turn,
        answer: Result<A, Refusal>,
        number: u8,
        limits: Limits,
        line: &mut L,
        report: &mut Report,
    ) -> (bool, Result<A, Refusal>)
        ensures does { Did L.waiting (heard Q.frames Q.KIND (L.takes line.old) limits Q.follows Q.DECLINED turn answer number self.old) (kept result.0 self.new) result.1 line.old line.new report.old report.new }
        ensures left { result.0 ≡ false → self.new ≡ self.old }
    {
        if self.number != number {
            return (true, Err(Refusal::UnexpectedValue));
        }
        (self.turn(turn, limits, line, report), answer)
    }
}
