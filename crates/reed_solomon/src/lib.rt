// The Reed-Solomon stage over any field of bytes.
#![tactic(auto)]

pub mod examples;
pub mod protect;
pub mod stage;
