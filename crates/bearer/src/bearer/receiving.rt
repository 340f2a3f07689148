// User data received.
ghost use Rattle.std.specs.Prelude.{◌≡◌, []};
ghost use Rattle.reports.specs.Effects.{Did};
ghost use Rattle.bearer.specs.Traffics.{data_of, told_of, counting, delivers, got};

use super::Bearer;
use frames::cause::Cause;
use frames::frame::UserData;
use frames::refusal::Refusal;
use lines::line::Line;
use reports::happening::{Delivery, Happening};
use reports::report::Report;

impl Bearer {
    // User data that was received.
    pub fn receive_data<L: Line>(
        &mut self,
        user: UserData<'_>,
        line: &mut L,
        report: &mut Report,
    ) -> Result<(), Refusal>
        ensures { Did L.waiting (got (L.takes line.old) (data_of user.entry) self.old) self.new result line.old line.new [] report.new }
    {
        report.clear();
        match self.take_in(user) {
            Ok(delivery) => {
                self.deliver(delivery, line, report);
                Ok(())
            }
            Err(refusal) => self.object(refusal, line, report),
        }
    }

    // User data goes to the set in force.
    fn take_in(&mut self, user: UserData<'_>) -> Result<Delivery, Refusal>
        ensures told { result ≡ told_of (data_of user.entry) self.old }
        ensures next { self.new ≡ counting (data_of user.entry) result self.old }
    {
        let traffic = self.traffic.as_mut().ok_or(Refusal::UnexpectedPduType)?;
        traffic.receive(user, self.settings)
    }

    // A delivery is told, and a gap before it to the other end.
    fn deliver<L: Line>(&mut self, delivery: Delivery, line: &mut L, report: &mut Report)
        ensures { Did L.waiting (delivers (L.takes line.old) delivery self.old) self.new result line.old line.new report.old report.new }
    {
        let gap = delivery.gap;
        report.note(Happening::Delivered(delivery));
        if gap != 0 {
            self.tell(Cause::FRAME_LOSS, line, report);
        }
    }
}
