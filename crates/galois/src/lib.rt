// Fields of bytes.
#![tactic(auto)]

pub mod chosen;
pub mod field;
pub mod field1;
pub mod field2;
