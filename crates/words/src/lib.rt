// The words of a script: octets in hexadecimal and numbers in decimal.
#![tactic(auto)]

pub mod hex;
pub mod number;
