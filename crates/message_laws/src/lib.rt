// What reading a message means: the laws above the reader, each on a call.
#![tactic(auto)]

pub mod laws;
