// A line of 1 to 32 equal cells, each with room for one frame.

#![tactic(auto)]

mod cell;
pub mod cells;
pub mod count;
pub mod store;
