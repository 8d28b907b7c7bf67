// Commands: which types there are, what arguments each has, and which may be released.
#![tactic(auto)]

mod arguments;
mod kind;
mod release;
mod requests;
pub mod types;

pub use release::text;
pub use requests::{is_listed, request};
