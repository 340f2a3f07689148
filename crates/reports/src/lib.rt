// What one call caused, in order, and the one way by which a frame leaves: handed to a line, and named.

#![tactic(auto)]

pub mod ending;
pub mod happening;
pub mod report;
pub mod sending;
