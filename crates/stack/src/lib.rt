// Coding stages on carriers: the two interfaces, the stack of a stage on a carrier, and the bare carrier.
#![tactic(auto)]

pub mod bare;
pub mod buffer;
pub mod carrier;
pub mod corrections;
pub mod fault;
pub mod optional;
pub mod stack;
pub mod stage;
mod through;
