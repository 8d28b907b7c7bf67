// The line: a burst of tones is heard as a frame of octets, and a message is written as a burst.
#![tactic(auto)]

mod bits;
pub mod burst;
pub mod check;
mod counter;
pub mod frame;
pub mod heard;
mod listener;
mod packer;
mod scan;
mod sender;
mod sink;
mod tones;
mod writer;
