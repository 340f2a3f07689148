// Time passes.
ghost use Rattle.radio_end.specs.Steps.{links_ticked, rate_ticked, alignment_ticked};
ghost use Rattle.radio_end.specs.Runs.{Does, Step, tick};

use super::RadioEnd;
use exchange::slots::pass_in;
use lines::line::Line;
use reports::report::Report;

impl<L: Line> RadioEnd<L> {
    // One tick: for the numbers of user data, and for what runs.
    // While an initialisation runs nothing else does. Rate comes before alignment.
    pub fn tick(&mut self, report: &mut Report)
        ensures { Step L.waiting L.takes self.old (tick report.new) self.new }
    {
        report.clear();
        self.bearer.tick();
        if self.links.is_some() {
            self.tick_links(report);
        } else {
            self.tick_rate(report);
            self.tick_alignment(report);
        }
    }

    // Three of two lines each: between the last two stands an end of which the contract of a tick speaks, so one call of a closure would be no plainer.
    fn tick_links(&mut self, report: &mut Report)
        ensures { Does L.waiting (links_ticked (L.takes self.old.line) self.old.state) self.old result report.old report.new self.new }
    {
        let limits = self.bearer.settings().initialisation;
        pass_in(&mut self.links, limits, &mut self.line, report);
    }

    fn tick_rate(&mut self, report: &mut Report)
        ensures { Does L.waiting (rate_ticked (L.takes self.old.line) self.old.state) self.old result report.old report.new self.new }
    {
        let limits = self.bearer.settings().rate;
        pass_in(&mut self.rate.running, limits, &mut self.line, report);
    }

    fn tick_alignment(&mut self, report: &mut Report)
        ensures { Does L.waiting (alignment_ticked (L.takes self.old.line) self.old.state) self.old result report.old report.new self.new }
    {
        let limits = self.bearer.settings().alignment;
        pass_in(&mut self.alignment.running, limits, &mut self.line, report);
    }
}
