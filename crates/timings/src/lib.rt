// Calls that the timing programs make. Every slice is a pointer and a length.
#![tactic(auto)]

pub mod answer;
pub mod digest_calls;
pub mod message_calls;
pub mod store_calls;
