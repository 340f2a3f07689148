// A frame by value: at most 512 octets, with no memory of its own elsewhere. Behind them lie zeros.
use crate::row::{Blank, Row};

// The most octets that a frame has.
pub const LONGEST: usize = 512;

pub type Octets = Row<u8, LONGEST>;

impl Blank for u8 {
    ghost blank = { 0 };

    fn blank() -> u8 {
        0
    }
}
