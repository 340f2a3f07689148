// The links that a closed set is sent in.

#![tactic(auto)]

pub mod building;
mod part;
pub mod payload;
mod writing;
