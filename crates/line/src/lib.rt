// The line carrier: bytes as spread marks of the convolutional code, read at the least cost.
#![tactic(auto)]

pub mod examples;
pub mod line;
mod reading;
mod sending;
