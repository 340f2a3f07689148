// A frame from the core end.
ghost use Rattle.std.specs.Prelude.{◌≡◌, [], Ok};
ghost use Rattle.frames.specs.Contents.{content};
ghost use Rattle.payloads.specs.Payloads.{event_in};
ghost use Rattle.bearer.specs.Traffics.{data_of};
ghost use Rattle.radio_end.specs.Steps.{data_received, questioned, received_on};
ghost use Rattle.radio_end.specs.Runs.{Does, Step, receive};

use super::RadioEnd;
use crate::received::Received;
use frames::frame::{Frame, Question, UserData};
use frames::procedure::Procedure;
use frames::reading::read;
use frames::refusal::Refusal;
use lines::line::Line;
use payloads::question::read_error_event;
use reports::report::Report;

impl<L: Line> RadioEnd<L> {
    // Takes a frame in, whatever it is.
    pub fn receive(&mut self, octets: &[u8], report: &mut Report) -> Result<Received, Refusal>
        ensures { Step L.waiting L.takes self.old (receive octets.now result report.new) self.new }
    {
        match read(octets) {
            Ok(frame) => self.take_in(frame, report),
            Err(refusal) => self.bearer.object(refusal, &mut self.line, report),
        }
    }

    // A frame that was read.
    fn take_in(&mut self, frame: Frame<'_>, report: &mut Report) -> Result<Received, Refusal>
        ensures { Does L.waiting (received_on (L.takes self.old.line) (Ok (content frame.entry)) self.old.state) self.old result [] report.new self.new }
    {
        match frame {
            Frame::UserData(user) => self.deliver(user, report),
            Frame::Question(question) => self.question(question, report),
            Frame::Answer(answer) => self.answer(answer, report),
        }
    }

    fn deliver(&mut self, user: UserData<'_>, report: &mut Report) -> Result<Received, Refusal>
        ensures { Does L.waiting (data_received (L.takes self.old.line) (data_of user.entry) self.old.state) self.old result [] report.new self.new }
    {
        self.bearer.receive_data(user, &mut self.line, report)?;
        Ok(Received::Delivered)
    }

    // No question is expected but an error event.
    fn question(&mut self, question: Question<'_>, report: &mut Report) -> Result<Received, Refusal>
        ensures { Does L.waiting (questioned (L.takes self.old.line) question.entry.procedure (event_in question.entry.version question.entry.checksum question.entry.payload.now) self.old.state) self.old result [] report.new self.new }
    {
        if question.procedure != Procedure::ErrorEvent {
            return self
                .bearer
                .object(Refusal::UnexpectedProcedure, &mut self.line, report);
        }
        report.clear();
        let event = read_error_event(question)?;
        Ok(Received::ErrorEvent {
            cause: event.cause,
            distance: event.distance.code() + 1,
        })
    }
}
