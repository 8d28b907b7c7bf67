// What reading an item means: the laws above the reader, each on a call.
#![tactic(auto)]

pub mod laws;
