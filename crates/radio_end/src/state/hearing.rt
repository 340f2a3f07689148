// Answers to the questions of the radio end.
ghost use Rattle.std.specs.Prelude.{◌≡◌, []};
ghost use Rattle.frames.specs.Contents.{reply};
ghost use Rattle.radio_end.specs.Steps.{awaited, links_heard, heard, answered};
ghost use Rattle.radio_end.specs.Runs.{Does};

use super::RadioEnd;
use crate::received::Received;
use exchange::slots::hear_in;
use frames::cause::Cause;
use frames::frame::Answer;
use frames::procedure::Procedure;
use frames::refusal::Refusal;
use lines::line::Line;
use reports::report::Report;

impl<L: Line> RadioEnd<L> {
    // An answer goes to the exchange of its procedure.
    pub(super) fn answer(
        &mut self,
        answer: Answer<'_>,
        report: &mut Report,
    ) -> Result<Received, Refusal>
        ensures { Does L.waiting (answered (L.takes self.old.line) (reply answer.entry) self.old.state) self.old result [] report.new self.new }
    {
        if !self.awaits(answer.procedure) {
            return self
                .bearer
                .object(Refusal::UnexpectedProcedure, &mut self.line, report);
        }
        report.clear();
        let cause = self.hear(answer, report)?;
        Ok(cause.map_or(Received::Ack, |cause| Received::Nack(cause)))
    }

    // Whether an answer of this procedure is waited for: an error event has none.
    fn awaits(&self, procedure: Procedure) -> bool
        ensures { result ≡ awaited procedure self.now.state }
    {
        match procedure {
            Procedure::Initialisation => self.links.is_some(),
            Procedure::RateControl => self.rate.running.is_some(),
            Procedure::TimeAlignment => self.alignment.running.is_some(),
            Procedure::ErrorEvent => false,
        }
    }

    // The cause of a Nack, none for an Ack. The match is over the frame's own enum: each slot has a type of its own, so a table of calls would be no plainer.
    fn hear(&mut self, answer: Answer<'_>, report: &mut Report) -> Result<Option<Cause>, Refusal>
        ensures { Does L.waiting (heard (L.takes self.old.line) (reply answer.entry) answer.entry.procedure self.old.state) self.old result report.old report.new self.new }
    {
        let settings = self.bearer.settings();
        match answer.procedure {
            Procedure::Initialisation => self.hear_links(answer, report),
            Procedure::RateControl => hear_in(
                &mut self.rate.running,
                answer,
                settings.rate,
                &mut self.line,
                report,
            ),
            Procedure::TimeAlignment => hear_in(
                &mut self.alignment.running,
                answer,
                settings.alignment,
                &mut self.line,
                report,
            ),
            Procedure::ErrorEvent => Err(Refusal::UnexpectedProcedure),
        }
    }

    // The set that is offered comes into force once the Ack of its last link came.
    fn hear_links(
        &mut self,
        answer: Answer<'_>,
        report: &mut Report,
    ) -> Result<Option<Cause>, Refusal>
        ensures { Does L.waiting (links_heard (L.takes self.old.line) (reply answer.entry) self.old.state) self.old result report.old report.new self.new }
    {
        let running = self.links.as_ref().ok_or(Refusal::UnexpectedProcedure)?;
        let set = *running.question().set();
        let limits = self.bearer.settings().initialisation;
        let cause = hear_in(&mut self.links, answer, limits, &mut self.line, report)?;
        if cause.is_none() && self.links.is_none() {
            self.bearer.enforce(set);
        }
        Ok(cause)
    }
}
