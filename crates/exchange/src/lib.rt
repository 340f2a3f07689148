// A question under supervision: asked, repeated, answered or given up, in one way for every kind of question and every line.

#![tactic(auto)]

pub mod answer;
mod bounding;
pub mod exchange;
pub mod inquiry;
pub mod limits;
pub mod numbered;
pub mod slots;
mod steps;
