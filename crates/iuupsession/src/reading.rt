// The words of a line, read one by one.
use frames::hex::read_hex;
use frames::octets::LONGEST;
use frames::row::Row;
use script::numbers::{Number, read_number};
use script::unclear::Unclear;
use script::words::Words;
use sets::limits::MOST_SUBFLOWS;

const SIZES_KEPT: usize = MOST_SUBFLOWS + 1;

const OCTETS_KEPT: usize = LONGEST + 1;

// Sizes of subflows: one more than a combination can have is kept, since all longer lists are refused alike.
pub type Sizes = Row<u16, SIZES_KEPT>;

// Octets: one more than a frame can have is kept, since all longer ones are refused alike.
pub type Message = Row<u8, OCTETS_KEPT>;

#[derive(Drop)]
pub struct Cursor<'a> {
    words: Words<'a>,
}

impl<'a> Cursor<'a> {
    pub(crate) fn new(line: &'a [u8]) -> Cursor<'a> {
        Cursor {
            words: Words::of(line),
        }
    }

    pub(crate) fn word(&mut self) -> Result<&'a [u8], Unclear> {
        self.words.next().ok_or(Unclear::Words)
    }

    // No word may be left.
    pub(crate) fn end(&mut self) -> Result<(), Unclear> {
        match self.words.next() {
            Some(_) => Err(Unclear::Words),
            None => Ok(()),
        }
    }

    pub(crate) fn number<N: Number>(&mut self) -> Result<N, Unclear> {
        read_number(self.word()?)
    }

    // All words that are left are sizes, also those that a full row does not take.
    pub(crate) fn sizes(&mut self) -> Result<Sizes, Unclear> {
        let mut sizes = Sizes::new();
        for word in self.words.by_ref() {
            let _ = sizes.push(read_number(word)?);
        }
        Ok(sizes)
    }

    // A word of hexadecimal digits, or - for no octets.
    pub(crate) fn octets(&mut self) -> Result<Message, Unclear> {
        match self.word()? {
            b"-" => Ok(Message::new()),
            digits => read_octets(digits),
        }
    }
}

// All digits are looked at, also those of octets that a full row does not take.
fn read_octets(digits: &[u8]) -> Result<Message, Unclear> {
    let mut octets = Message::new();
    for piece in digits.chunks(2 * LONGEST) {
        let part = read_hex(piece).or(Err(Unclear::Value))?;
        for octet in part.as_slice() {
            let _ = octets.push(*octet);
        }
    }
    Ok(octets)
}
