// What a frame says. A control frame's number is a plain one, below 4: a value with a lifetime that holds a type with a meaning of its own,
// as `Number` has, is not covered where it goes through `?`, or whole to another function and is used again. The payload is a part of the received octets: all that follows the header, from its place on.
use crate::data_type::DataType;
use crate::procedure::Procedure;

// The header fields of user data. They are plain numbers too: anybody may build one, and `build_user_data` refuses what is out of range.
#[derive(Clone, Copy, PartialEq, Eq, Debug)]
pub struct DataHeader {
    pub data_type: DataType,
    pub number: u8,
    pub fqc: u8,
    pub rfci: u8,
}

#[derive(Clone, Copy)]
pub struct UserData<'a> {
    pub header: DataHeader,
    // the payload's checksum as received; plain data has none
    pub checksum: Option<u16>,
    pub place: usize,
    pub payload: &'a [u8],
}

#[derive(Clone, Copy)]
pub struct Question<'a> {
    pub number: u8,
    pub version: u8,
    pub procedure: Procedure,
    pub checksum: u16,
    pub place: usize,
    pub payload: &'a [u8],
}

// Whether an answer accepts its question.
#[derive(Clone, Copy, PartialEq, Eq, Debug)]
pub enum AckNack {
    Ack,
    Nack,
}

// The ten bits of an answer's checksum are spare.
#[derive(Clone, Copy)]
pub struct Answer<'a> {
    pub ack_nack: AckNack,
    pub number: u8,
    pub version: u8,
    pub procedure: Procedure,
    pub place: usize,
    pub payload: &'a [u8],
}

#[derive(Clone, Copy)]
pub enum Frame<'a> {
    UserData(UserData<'a>),
    Question(Question<'a>),
    Answer(Answer<'a>),
}
