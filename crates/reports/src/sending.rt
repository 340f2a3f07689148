// A frame is handed to a line, and what became of it is named.
ghost use Rattle.std.specs.Prelude.{◌≡◌, length};
ghost use Rattle.lines.specs.Meaning.{sends, accepted, Passed};
ghost use Rattle.reports.specs.Said.{noted, sending, offered};
ghost use Rattle.reports.specs.Effects.{all_noted};

use crate::happening::Happening;
use crate::report::Report;
use frames::octets::Octets;
use frames::refusal::Refusal;
use lines::line::Line;

pub fn send<L: Line>(line: &mut L, frame: &Octets, report: &mut Report)
    ensures line { Passed L.Line.waiting line.old line.new (sends (L.Line.takes line.old (length frame.now)) frame.now) }
    ensures report { report.new ≡ noted (sending (L.Line.takes line.old (length frame.now)) frame.now) report.old }
{
    match line.put(frame.as_slice()) {
        Ok(()) => report.note(Happening::HandedOver(*frame)),
        Err(_) => report.note(Happening::Refused(*frame)),
    }
}

// A frame that is refused where the line does not take it: then nothing is named.
pub fn offer<L: Line>(line: &mut L, frame: &Octets, report: &mut Report) -> Result<(), Refusal>
    ensures answer { result ≡ accepted (L.Line.takes line.old (length frame.now)) }
    ensures line { Passed L.Line.waiting line.old line.new (sends (L.Line.takes line.old (length frame.now)) frame.now) }
    ensures report { report.new ≡ all_noted (offered (L.Line.takes line.old (length frame.now)) frame.now) report.old }
{
    line.put(frame.as_slice())?;
    report.note(Happening::HandedOver(*frame));
    Ok(())
}
