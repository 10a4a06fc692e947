// The eleven numbers of a plan, and their limits.
#![tactic(auto)]

pub mod judge;
pub mod numbers;
