// Lines: where frames wait on their way out.

#![tactic(auto)]

pub mod length;
pub mod line;
pub mod queue;
pub mod sender;
pub mod size;
pub mod store;
pub mod turning;
