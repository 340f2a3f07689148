// User data sent, and its numbering.
ghost use Rattle.std.specs.Prelude.{◌≡◌, []};
ghost use Rattle.reports.specs.Effects.{Did};
ghost use Rattle.bearer.specs.Traffics.{tick_passed, data_sent};

use super::Bearer;
use crate::settings::Numbering;
use frames::refusal::Refusal;
use lines::line::Line;
use reports::report::Report;
use reports::sending::offer;

impl Bearer {
    // A tick, as user data is numbered.
    pub fn tick(&mut self)
        ensures { self.new ≡ tick_passed self.old }
    {
        if let Some(traffic) = &mut self.traffic {
            traffic.number_on(self.settings.numbering, Numbering::Timed);
        }
    }

    // Sends user data of a combination.
    pub fn send_data<L: Line>(
        &mut self,
        rfci: u8,
        fqc: u8,
        payload: &[u8],
        line: &mut L,
        report: &mut Report,
    ) -> Result<(), Refusal>
        ensures { Did L.waiting (data_sent (L.takes line.old) rfci fqc payload.now self.old) self.new result line.old line.new [] report.new }
    {
        report.clear();
        let traffic = self.traffic.as_mut().ok_or(Refusal::WrongPhase)?;
        let frame = traffic.frame(rfci, fqc, payload)?;
        offer(line, &frame, report)?;
        traffic.number_on(self.settings.numbering, Numbering::Counted);
        Ok(())
    }
}
