// Books: up to 32 jobs in one file, judged as a whole and then run entry by entry.
#![tactic(auto)]

pub mod contents;
pub mod entry;
pub mod fault;
pub mod job;
pub mod judge;
pub mod run;
