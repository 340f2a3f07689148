// The payloads of control frames and of user data, read and checked.

#![tactic(auto)]

pub mod answer;
pub mod check;
pub mod event;
mod marks;
pub mod question;
