// The laws of the line.
#![tactic(auto)]

pub mod laws;
pub mod loopback;
