// What both ends share: settings, error events, and user data sent and received.

#![tactic(auto)]

pub mod bearer;
mod choosing;
pub mod marks;
pub mod settings;
mod traffic;
