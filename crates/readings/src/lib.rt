// Readings of marks, and the rule that spreads them.
#![tactic(auto)]

pub mod helical;
pub mod reading;
pub mod sample;
