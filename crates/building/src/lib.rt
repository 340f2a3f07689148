// Frames built into values: the header with its checksums, and the payload after it.

#![tactic(auto)]

pub mod answer;
mod control;
mod layout;
mod padding;
pub mod question;
pub mod rate;
pub mod user_data;
