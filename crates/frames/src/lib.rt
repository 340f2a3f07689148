// Frames of the Iu user plane: why one is refused, numbers in a range, rows by value, hexadecimal, a frame's header and what it says.

#![tactic(auto)]

pub mod cause;
pub mod control_kind;
pub mod data_type;
pub mod distance;
pub mod extent;
pub mod frame;
pub mod header;
pub mod hex;
pub mod mask;
pub mod number;
pub mod octets;
pub mod procedure;
pub mod ranged;
pub mod reading;
pub mod refusal;
pub mod row;
pub mod shift;
