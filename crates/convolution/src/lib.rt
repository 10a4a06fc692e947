// The convolutional code of memory six: its rates, its marks, its encoder, and the decoder of least cost.
#![tactic(auto)]

pub mod costs;
pub mod encoder;
mod lanes;
pub mod marks;
pub mod rate;
mod runs;
pub mod viterbi;
