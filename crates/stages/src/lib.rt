// The coding stages of a link: check byte, randomiser and block interleaver.
#![tactic(auto)]

pub mod check;
pub mod examples;
pub mod interleaver;
pub mod randomiser;
mod remainder;
mod sequence;
