// What is shown of a line of hexadecimal: the header of the frame, or the refusal. A line comes whole, or byte by byte.

#![tactic(auto)]

pub mod gathering;
pub mod show;
