// Frames read and built again, and the laws of both round trips.

#![tactic(auto)]

mod again;
pub mod rebuild;
