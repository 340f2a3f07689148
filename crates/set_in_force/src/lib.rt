// The set in force: its combinations looked up, searched, marked, and cut into subflows.

#![tactic(auto)]

pub mod in_force;
mod looking;
pub mod place;
mod placing;
mod searching;
