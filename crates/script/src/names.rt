// The words that name something.
ghost use Rattle.std.specs.Prelude.{◌≡◌};
ghost use Rattle.script.specs.Names.{verb_in, request_in, choice_in};

use crate::unclear::Unclear;

// The two ends.
#[derive(Clone, Copy, PartialEq, Eq, Debug)]
pub enum End {
    Radio,
    Core,
}

// The first word of a line.
#[derive(Clone, Copy, PartialEq, Eq, Debug)]
pub enum Verb {
    Draft,
    Add,
    Close,
    Settings,
    Line,
    Carry,
    At(End),
}

// What is asked of an end: the second word of a line.
#[derive(Clone, Copy, PartialEq, Eq, Debug)]
pub enum Request {
    Open,
    Start,
    Rate,
    Align,
    Data,
    Report,
    Search,
    Receive,
    Accept,
    Decline,
    Set,
    Tick,
    Take,
}

pub fn read_verb(word: &[u8]) -> Result<Verb, Unclear>
    ensures { result ≡ verb_in word.now }
{
    match word {
        b"draft" => Ok(Verb::Draft),
        b"add" => Ok(Verb::Add),
        b"close" => Ok(Verb::Close),
        b"settings" => Ok(Verb::Settings),
        b"line" => Ok(Verb::Line),
        b"carry" => Ok(Verb::Carry),
        b"radio" => Ok(Verb::At(End::Radio)),
        b"core" => Ok(Verb::At(End::Core)),
        _ => Err(Unclear::Name),
    }
}

pub fn read_request(word: &[u8]) -> Result<Request, Unclear>
    ensures { result ≡ request_in word.now }
{
    match word {
        b"open" => Ok(Request::Open),
        b"start" => Ok(Request::Start),
        b"rate" => Ok(Request::Rate),
        b"align" => Ok(Request::Align),
        b"data" => Ok(Request::Data),
        b"report" => Ok(Request::Report),
        b"search" => Ok(Request::Search),
        b"receive" => Ok(Request::Receive),
        b"accept" => Ok(Request::Accept),
        b"decline" => Ok(Request::Decline),
        b"set" => Ok(Request::Set),
        b"tick" => Ok(Request::Tick),
        b"take" => Ok(Request::Take),
        _ => Err(Unclear::Name),
    }
}

// One of two names, and what each stands for.
pub fn read_choice<T: Copy>(
    word: &[u8],
    first: (&[u8], T),
    second: (&[u8], T),
) -> Result<T, Unclear>
    ensures { result ≡ choice_in word.now (first.entry.0.now, first.entry.1) (second.entry.0.now, second.entry.1) }
{
    if word == first.0 {
        Ok(first.1)
    } else if word == second.0 {
        Ok(second.1)
    } else {
        Err(Unclear::Name)
    }
}
