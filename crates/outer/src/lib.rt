// Reed-Solomon codes over any field of bytes.
#![tactic(auto)]

pub mod code;
pub mod correction;
pub mod encoder;
pub mod error_places;
pub mod lanes;
pub mod locator;
pub mod syndromes;
