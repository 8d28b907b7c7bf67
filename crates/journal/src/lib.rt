// Stores of marks: a journal over any cells, and a floor over any store.
#![tactic(auto)]

pub mod floor;
pub mod journal;
pub mod source;
