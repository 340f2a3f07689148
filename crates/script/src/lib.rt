// Session scripts: the words of a line, its numbers and marks, and what the line asks for.

#![tactic(auto)]

pub mod marks;
pub mod names;
pub mod numbers;
pub mod unclear;
pub mod words;
