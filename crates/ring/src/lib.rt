// A line in one ring of 514 to 65,536 octets, where a frame costs its length plus two.

#![tactic(auto)]

mod circle;
pub mod ring;
pub mod size;
pub mod store;
