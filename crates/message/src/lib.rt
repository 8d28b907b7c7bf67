// A message: its octets become typed fields, or a refusal; then what the rules ask of the fields.
#![tactic(auto)]

mod entries;
mod expiry;
mod message;
mod parts;
mod sizes;
pub mod types;

pub use expiry::{not_expired, not_too_far};
pub use message::Message;
pub use message::reading::read;
