// Marks of sender pairs, and memory cells that hold them through power cuts.
#![tactic(auto)]

pub mod cells;
mod codec;
pub mod image;
pub mod mark;
pub mod order;
pub mod power;
pub mod store;
pub mod table;
