// The links of a closed set as frames.

#![tactic(auto)]

pub mod framing;
