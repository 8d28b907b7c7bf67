// Who says that a signature is good: the interface, and two sheets of verdicts worked out by other software.
#![tactic(auto)]

mod tag_sheet;
mod transcript;
mod verdict_sheet;
mod verifier;

pub use crate::tag_sheet::TagSheet;
pub use crate::transcript::Transcript;
pub use crate::verdict_sheet::VerdictSheet;
pub use crate::verifier::Verifier;
