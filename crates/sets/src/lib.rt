// Sets of RAB subflow combinations: opening values, drafts, and closed sets.

#![tactic(auto)]

pub mod closed;
pub mod combination;
pub mod draft;
pub mod drafted;
pub mod limits;
pub mod opening;
pub mod table;
