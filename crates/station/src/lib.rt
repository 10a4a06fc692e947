// Stations: one carrier in service under a number, with counts of what it wrote and read.
#![tactic(auto)]

pub mod answer;
pub mod counts;
pub mod examples;
pub mod idle;
pub mod refusal;
pub mod tuned;
