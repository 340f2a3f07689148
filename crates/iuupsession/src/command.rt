// What a line of a script asks for.
use crate::preparing::LineSize;
use crate::reading::{Cursor, Message, Sizes};
use bearer::settings::{Numbering, Settings, Timing};
use cells::count::CellCount;
use frames::cause::Cause;
use frames::mask::MOST_MARKS;
use frames::refusal::Refusal;
use frames::shift::Direction;
use ring::size::RingSize;
use script::marks::read_marks;
use script::names::{End, Request, Verb, read_choice, read_request, read_verb};
use script::unclear::Unclear;
use sets::opening::Opening;

// A call on an end that is open.
#[derive(Clone, Copy)]
pub enum Call {
    Start,
    Rate { bars: [bool; MOST_MARKS] },
    Align { direction: Direction, steps: u8 },
    Data { rfci: u8, fqc: u8, payload: Message },
    Report { cause: u8 },
    Search { sizes: Sizes },
    Receive { frame: Message },
    Accept,
    Decline { cause: Cause },
    Set,
    Tick,
    Take,
}

// A combination to add. Not fields of the variant: a row of them bound beside a `?` is not covered by the borrow checker.
#[derive(Clone, Copy)]
pub struct Addition {
    pub rfci: u8,
    pub ipti: u8,
    pub sizes: Sizes,
}

#[derive(Clone, Copy)]
pub enum Command {
    // the opening values that were written, or why no draft has such
    Draft(Result<Opening, Refusal>),
    Add(Addition),
    Close,
    // the settings that were written, or why no end has such
    Settings(Result<Settings, Refusal>),
    // the size that was written, or why no line has such
    Line(Result<LineSize, Refusal>),
    Open(End),
    At(End, Call),
    Carry(End),
}

// What the script names: cells, so many, or a ring of so many octets. A size is checked before it is one.
#[derive(Clone, Copy)]
enum LineKind {
    Cells,
    Ring,
}

impl Cursor<'_> {
    fn draft(&mut self) -> Result<Command, Unclear> {
        let subflows = self.number()?;
        let timed = self.number()?;
        let data_type = self.number()?;
        Ok(Command::Draft(Opening::new(subflows, timed, data_type)))
    }

    fn combination(&mut self) -> Result<Command, Unclear> {
        let rfci = self.number()?;
        let ipti = self.number()?;
        let sizes = self.sizes()?;
        Ok(Command::Add(Addition { rfci, ipti, sizes }))
    }

    fn timing(&mut self) -> Result<Timing, Unclear> {
        let ticks = self.number()?;
        let repeats = self.number()?;
        Ok(Timing { ticks, repeats })
    }

    fn settings(&mut self) -> Result<Command, Unclear> {
        let initialisation = self.timing()?;
        let rate = self.timing()?;
        let alignment = self.timing()?;
        let numbering = read_choice(
            self.word()?,
            (b"timed", Numbering::Timed),
            (b"counted", Numbering::Counted),
        )?;
        let keep_damaged = read_choice(self.word()?, (b"keep", true), (b"drop", false))?;
        let mark = self.number()?;
        Ok(Command::Settings(Settings::new(
            initialisation,
            rate,
            alignment,
            numbering,
            keep_damaged,
            mark,
        )))
    }

    fn line(&mut self) -> Result<Command, Unclear> {
        let kind = read_choice(
            self.word()?,
            (b"cells", LineKind::Cells),
            (b"ring", LineKind::Ring),
        )?;
        let size = self.number()?;
        Ok(Command::Line(match kind {
            LineKind::Cells => CellCount::new(size).map(|count| LineSize::Cells(count)),
            LineKind::Ring => RingSize::new(size).map(|size| LineSize::Ring(size)),
        }))
    }

    fn carry(&mut self) -> Result<Command, Unclear> {
        match read_verb(self.word()?)? {
            Verb::At(end) => Ok(Command::Carry(end)),
            _ => Err(Unclear::Name),
        }
    }

    // As `line` reads a name and a number, but other ones: a common reader would be no plainer.
    fn align(&mut self) -> Result<Call, Unclear> {
        let direction = read_choice(
            self.word()?,
            (b"delay", Direction::Delay),
            (b"advance", Direction::Advance),
        )?;
        let steps = self.number()?;
        Ok(Call::Align { direction, steps })
    }

    // As `combination` reads three words, but of another meaning each: a common reader would be no plainer.
    fn user_data(&mut self) -> Result<Call, Unclear> {
        let rfci = self.number()?;
        let fqc = self.number()?;
        let payload = self.octets()?;
        Ok(Call::Data { rfci, fqc, payload })
    }

    fn decline(&mut self) -> Result<Call, Unclear> {
        match Cause::within(self.number()?) {
            Some(cause @ (Cause::ALIGNMENT_NOT_SUPPORTED | Cause::ALIGNMENT_NOT_POSSIBLE)) => {
                Ok(Call::Decline { cause })
            }
            _ => Err(Unclear::Value),
        }
    }

    fn at(&mut self, end: End) -> Result<Command, Unclear> {
        let call = match read_request(self.word()?)? {
            Request::Open => return Ok(Command::Open(end)),
            Request::Start => Call::Start,
            Request::Rate => Call::Rate {
                bars: read_marks(self.word()?)?,
            },
            Request::Align => self.align()?,
            Request::Data => self.user_data()?,
            Request::Report => Call::Report {
                cause: self.number()?,
            },
            Request::Search => Call::Search {
                sizes: self.sizes()?,
            },
            Request::Receive => Call::Receive {
                frame: self.octets()?,
            },
            Request::Accept => Call::Accept,
            Request::Decline => self.decline()?,
            Request::Set => Call::Set,
            Request::Tick => Call::Tick,
            Request::Take => Call::Take,
        };
        Ok(Command::At(end, call))
    }
}

// A line is understood as a whole: nothing may follow what it asks for.
pub(crate) fn understand(line: &[u8]) -> Result<Command, Unclear> {
    let mut cursor = Cursor::new(line);
    let command = match read_verb(cursor.word()?)? {
        Verb::Draft => cursor.draft()?,
        Verb::Add => cursor.combination()?,
        Verb::Close => Command::Close,
        Verb::Settings => cursor.settings()?,
        Verb::Line => cursor.line()?,
        Verb::Carry => cursor.carry()?,
        Verb::At(end) => cursor.at(end)?,
    };
    cursor.end()?;
    Ok(command)
}
