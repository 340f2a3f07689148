// Links read, from any maker, against those held.

#![tactic(auto)]

mod admitting;
mod coded;
pub mod fields;
mod halves;
pub mod held;
mod reading;
mod taking;
