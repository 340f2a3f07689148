// The questions of the radio end, and what an answer to each leads to.

#![tactic(auto)]

pub mod alignment;
pub mod answer;
pub mod links;
pub mod rate;
