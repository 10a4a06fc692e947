// A stage and a carrier of another make, as patterns for makes of your own.
#![tactic(auto)]

pub mod erasing;
pub mod marker;
