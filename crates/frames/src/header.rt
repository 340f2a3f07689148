// The frame header: the first three octets are read the same way for every type.
ghost use Rattle.std.specs.Prelude.{◌≡◌, Some};
ghost use Rattle.frames.specs.Headers.{header_in, header_text, type_number, type_in};

use crate::octets::LONGEST;
use crate::refusal::Refusal;
use checksum::header_checksum;
use std::fmt;

#[derive(Clone, Copy, PartialEq, Eq, Debug)]
pub enum PduType {
    // user data with a payload checksum
    CheckedData = 0,
    // user data without one
    PlainData = 1,
    Control = 14,
}

impl PduType {
    // The number in the high half of a frame's first octet.
    pub fn number(self) -> u8
        ensures { result ≡ type_number self }
    {
        self as u8
    }
}

// No other number names a type.
impl TryFrom<u8> for PduType {
    type Error = Refusal;

    fn try_from(number: u8) -> Result<PduType, Refusal>
        ensures { result ≡ type_in number }
    {
        match number {
            0 => Ok(PduType::CheckedData),
            1 => Ok(PduType::PlainData),
            14 => Ok(PduType::Control),
            _ => Err(Refusal::PduType),
        }
    }
}

#[derive(Clone, Copy, PartialEq, Eq, Debug)]
pub struct Header {
    pub pdu_type: PduType,
    pub header_length: usize,
    pub payload_length: usize,
}

// The type, the header's length and the payload's, in decimal digits.
impl fmt::Display for Header {
    ghost output = { λ header. Some (header_text header) };

    fn fmt<W: fmt::Write>(&self, f: &mut fmt::Formatter<W>) -> fmt::Result {
        let pdu_type = self.pdu_type.number();
        let length = self.header_length;
        write!(f, "{pdu_type} {length} {}", self.payload_length)
    }
}

// The type, and what is left of the frame for header and payload. The payload is all that follows the header.
pub fn read_header(octets: &[u8]) -> Result<Header, Refusal>
    ensures { result ≡ header_in octets.now }
{
    if octets.len() > LONGEST {
        return Err(Refusal::TooLong);
    }
    let ([first, second, third], rest) = octets.split_first_chunk::<3>().ok_or(Refusal::TooShort)?;
    if third >> 2 != header_checksum(*first, *second) {
        return Err(Refusal::HeaderChecksum);
    }
    let pdu_type = PduType::try_from(first >> 4)?;
    match (pdu_type, rest) {
        (PduType::PlainData, _) => Ok(Header {
            pdu_type,
            header_length: 3,
            payload_length: rest.len(),
        }),
        (_, [_, payload @ ..]) => Ok(Header {
            pdu_type,
            header_length: 4,
            payload_length: payload.len(),
        }),
        (_, []) => Err(Refusal::TooShort),
    }
}
