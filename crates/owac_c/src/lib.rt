// Calls for hosts in C. Every slice is a pointer and a length.
#![tactic(auto)]

pub mod answer;
pub mod host;
pub mod line_calls;
mod numbers;
pub mod receiver_calls;
