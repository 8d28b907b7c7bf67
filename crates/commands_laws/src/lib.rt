// What reading a request, releasing it and handing out its text mean: the laws above the commands, each on a call.
#![tactic(auto)]

pub mod laws;
