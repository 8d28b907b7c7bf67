// Laws of stores, floors and journals, on the calls that carry them out.
#![tactic(auto)]

pub mod call;
pub mod floors;
pub mod images;
pub mod journals;
pub mod runs;
