// A session: what is prepared, and the end that is driven.
use crate::answer::{Answer, Complaint, Missing};
use crate::command::{Call, Command, understand};
use crate::driving::drive;
use crate::preparing::{LineSize, Prepared};
use crate::printing::Said;
use cells::cells::Cells;
use radio_end::state::RadioEnd;
use reports::report::Report;
use ring::ring::Ring;
use script::names::End;
use script::words::Words;
use std::io;
use std::io::Write;

// A radio end, over one kind of line or the other.
#[derive(Drop)]
enum Radio {
    OverCells(RadioEnd<Cells>),
    OverRing(RadioEnd<Ring>),
}

// At most one radio end is open.
#[derive(Drop)]
pub struct Session {
    prepared: Prepared,
    radio: Option<Radio>,
    // of the line that is played: one for all, since it is two kibibytes
    report: Report,
}

// Blank lines and remarks ask for nothing.
fn is_silent(line: &[u8]) -> bool {
    line.starts_with(b"#") || Words::of(line).next().is_none()
}

impl Session {
    pub(crate) fn new() -> Session {
        Session {
            prepared: Prepared::new(),
            radio: None,
            report: Report::new(),
        }
    }

    // An end that was open is let go.
    fn open_radio(&mut self) -> Result<(), Complaint> {
        let settings = self.prepared.settings.ok_or(Missing::Settings)?;
        let size = self.prepared.size.ok_or(Missing::LineSize)?;
        self.radio = Some(match size {
            LineSize::Cells(count) => Radio::OverCells(RadioEnd::open(settings, Cells::new(count))),
            LineSize::Ring(size) => Radio::OverRing(RadioEnd::open(settings, Ring::new(size))),
        });
        Ok(())
    }

    fn call_radio(&mut self, call: Call) -> Result<Answer, Complaint> {
        let set = self.prepared.set;
        let report = &mut self.report;
        match &mut self.radio {
            Some(Radio::OverCells(radio)) => drive(radio, call, set, report),
            Some(Radio::OverRing(radio)) => drive(radio, call, set, report),
            None => Err(Complaint::Missing(Missing::RadioEnd)),
        }
    }

    // What prepares, done or complained of: it makes no answer, which has room for a set and is written over at each line.
    fn prepare(&mut self, command: Command) -> Result<(), Complaint> {
        match command {
            Command::Draft(opening) => self.prepared.open_draft(opening?),
            Command::Add(addition) => self.prepared.add(addition)?,
            Command::Close => self.prepared.close()?,
            Command::Settings(settings) => self.prepared.settings = Some(settings?),
            Command::Line(size) => self.prepared.size = Some(size?),
            Command::Open(End::Radio) => self.open_radio()?,
            Command::Open(End::Core) | Command::At(_, _) | Command::Carry(_) => {
                return Err(Complaint::Missing(Missing::CoreEnd));
            }
        }
        Ok(())
    }

    // What the line asks for is done, and its answer written.
    fn obey(&mut self, command: Command, out: &mut impl Write) -> io::Result<()> {
        let complaint = match command {
            Command::At(End::Radio, call) => match self.call_radio(call) {
                Ok(answer) => return writeln!(out, "{answer}"),
                Err(complaint) => complaint,
            },
            command => match self.prepare(command) {
                Ok(()) => return out.write_all(b"ok\n"),
                Err(complaint) => complaint,
            },
        };
        writeln!(out, "{complaint}")
    }

    // One line of the script: its echo, what it answers, and each entry of the report.
    pub(crate) fn play(&mut self, line: &[u8], out: &mut impl Write) -> io::Result<()> {
        if is_silent(line) {
            return Ok(());
        }
        out.write_all(b"> ")?;
        out.write_all(line)?;
        out.write_all(b"\n")?;
        let command = match understand(line) {
            Ok(command) => command,
            Err(unclear) => return writeln!(out, "? {unclear}"),
        };
        self.report.clear();
        self.obey(command, out)?;
        for happening in self.report.happenings() {
            writeln!(out, "  {}", Said(*happening))?;
        }
        Ok(())
    }
}
