// What the receiver and the writers answer, said once for all layers.
#![tactic(auto)]

pub mod refusal;
