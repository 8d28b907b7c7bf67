// The receiver: made over any store, it listens and is switched on, and no power cut lets a job in twice.
#![tactic(auto)]

pub mod call;
pub mod receiver;
pub mod run;
