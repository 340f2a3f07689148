// The requests that begin an exchange.
ghost use Rattle.std.specs.Prelude.{◌≡◌, ◌+◌, take, None};
ghost use Rattle.reports.specs.Effects.{all_noted};
ghost use Rattle.set_in_force.specs.Looks.{highest_of};
ghost use Rattle.radio_end.specs.Steps.{overtaken};
ghost use Rattle.radio_end.specs.Runs.{Step, start, rate, align};

use super::RadioEnd;
use bearer::marks::allow_one;
use exchange::exchange::Exchange;
use exchange::inquiry::Inquiry;
use exchange::slots::start_in;
use frames::mask::{MOST_MARKS, RateMask};
use frames::number::Number;
use frames::refusal::Refusal;
use frames::shift::{Direction, Shift};
use lines::line::Line;
use questions::alignment::AlignmentQuestion;
use questions::links::Links;
use questions::rate::RateQuestion;
use reports::ending::Ending;
use reports::happening::Happening;
use reports::report::Report;
use set_in_force::in_force::InForce;
use sets::closed::Set;

// An exchange that runs is ended by a new initialisation.
fn overtake<Q: Inquiry>(slot: &mut Option<Exchange<Q>>, report: &mut Report)
    ensures ended { slot.new ≡ None }
    ensures said { report.new ≡ all_noted (overtaken Q.KIND slot.old) report.old }
{
    if slot.take().is_some() {
        report.note(Happening::Ended(Q::KIND, Ending::Overtaken));
    }
}

// As many of the marks as the set has RFCIs up to its highest. A library has no heap: the marks come as an array, of which a `RateMask` takes the first.
fn mask_for(set: &InForce, bars: [bool; MOST_MARKS]) -> RateMask
    ensures { result ≡ take (highest_of set.now.combinations + 1) bars }
{
    RateMask::new(set.highest() as usize + 1, bars).unwrap()
}

impl<L: Line> RadioEnd<L> {
    // Offers a set: its first link is handed over. What else runs is overtaken, and no set is in force until this one is.
    pub fn start(&mut self, set: Set, report: &mut Report) -> Result<(), Refusal>
        ensures { Step L.waiting L.takes self.old (start set result report.new) self.new }
    {
        report.clear();
        if self.links.is_some() {
            return Err(Refusal::WrongPhase);
        }
        let links = Links::new(set);
        if !links.fit() {
            return Err(Refusal::LinkTooLong);
        }
        let first = Exchange::first(
            links,
            Number::first(),
            self.bearer.settings().initialisation,
        );
        if !first.is_taken(&self.line) {
            return Err(Refusal::LineDeclines);
        }
        overtake(&mut self.rate.running, report);
        overtake(&mut self.alignment.running, report);
        self.bearer.suspend();
        start_in(&mut self.links, first, &mut self.line, report);
        Ok(())
    }

    // Asks for a rate: the marks bar combinations from RFCI 0 on, as many as the set in force needs.
    pub fn rate(&mut self, bars: [bool; MOST_MARKS], report: &mut Report) -> Result<(), Refusal>
        ensures { Step L.waiting L.takes self.old (rate bars result report.new) self.new }
    {
        report.clear();
        let set = self.bearer.in_force().ok_or(Refusal::WrongPhase)?;
        if self.rate.running.is_some() {
            return Err(Refusal::AlreadyRuns);
        }
        if !allow_one(set, &bars) {
            return Err(Refusal::ValueRange);
        }
        let question = RateQuestion::new(mask_for(set, bars));
        let limits = self.bearer.settings().rate;
        self.rate.begin(question, limits, &mut self.line, report)
    }

    // Asks the other end to send later or earlier by some steps.
    pub fn align(
        &mut self,
        direction: Direction,
        steps: u8,
        report: &mut Report,
    ) -> Result<(), Refusal>
        ensures { Step L.waiting L.takes self.old (align direction steps result report.new) self.new }
    {
        report.clear();
        if self.bearer.in_force().is_none() {
            return Err(Refusal::WrongPhase);
        }
        if self.alignment.running.is_some() {
            return Err(Refusal::AlreadyRuns);
        }
        let question = AlignmentQuestion::new(Shift::new(direction, steps)?);
        let limits = self.bearer.settings().alignment;
        self.alignment
            .begin(question, limits, &mut self.line, report)
    }
}
