// The limits of a set, and of its combinations.
pub const MOST_SUBFLOWS: usize = 7;

pub const MOST_COMBINATIONS: usize = 32;

// The most bits of a combination.
pub const MOST_BITS: u32 = 4000;

pub const HIGHEST_RFCI: u8 = 62;

pub const HIGHEST_IPTI: u8 = 15;
