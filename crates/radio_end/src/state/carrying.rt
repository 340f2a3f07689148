// User data, error reports and the search.
ghost use Rattle.radio_end.specs.Runs.{Step, send, report as reporting, seek};

use super::RadioEnd;
use frames::refusal::Refusal;
use lines::line::Line;
use reports::report::Report;

impl<L: Line> RadioEnd<L> {
    // Sends user data of a combination of the set in force.
    pub fn data(
        &mut self,
        rfci: u8,
        fqc: u8,
        payload: &[u8],
        report: &mut Report,
    ) -> Result<(), Refusal>
        ensures { Step L.waiting L.takes self.old (send rfci fqc payload.now result report.new) self.new }
    {
        self.bearer
            .send_data(rfci, fqc, payload, &mut self.line, report)
    }

    // Tells the other end of an upper layer's error.
    pub fn report_error(&mut self, cause: u8, report: &mut Report) -> Result<(), Refusal>
        ensures { Step L.waiting L.takes self.old (reporting cause result report.new) self.new }
    {
        self.bearer.report_error(cause, &mut self.line, report)
    }

    // The RFCI of any one combination of the set in force with exactly these sizes.
    pub fn search(&self, sizes: &[u16], report: &mut Report) -> Result<u8, Refusal>
        ensures { Step L.waiting L.takes self.now (seek sizes.now result report.new) self.now }
    {
        self.bearer.search(sizes, report)
    }
}
