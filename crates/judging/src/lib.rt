// Judging a burst: every question in its order, and the one write that a release makes.
#![tactic(auto)]

pub mod answer;
mod bursts;
mod stages;

pub use bursts::judge;
