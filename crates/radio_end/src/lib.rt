// The radio end: it offers a set, then asks for rates and alignments, and carries user data and error events, over any line.

#![tactic(auto)]

pub mod received;
pub mod state;
