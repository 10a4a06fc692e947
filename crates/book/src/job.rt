// A judged entry: its plan, what it holds, and where; and what the lent buffers must be for it.
use crate::contents::Kind;
use plan::plan::Plan;

// An entry whose plan is listed and whose kind and length are the plan's.
#[derive(Clone, Copy, Debug, PartialEq, Eq)]
pub struct Job {
    pub plan: Plan,
    pub kind: Kind,
    // Where the entry begins in the file.
    pub start: usize,
    // How many bytes it has.
    pub length: usize,
}

// How long the lent buffers must be at least.
#[derive(Clone, Copy, Debug, Default, PartialEq, Eq)]
pub struct Needs {
    // Each of the two byte buffers.
    pub bytes: usize,
    // The step buffer.
    pub steps: usize,
    // The list of hard readings.
    pub hard: usize,
    // The list of soft readings.
    pub soft: usize,
    // The result buffer.
    pub results: usize,
}

// How long what was lent is.
#[derive(Clone, Copy, Debug, PartialEq, Eq)]
pub struct Lent {
    // The two byte buffers.
    pub first: usize,
    pub second: usize,
    // The step buffer.
    pub steps: usize,
    // The list of hard readings.
    pub hard: usize,
    // The list of soft readings.
    pub soft: usize,
    // The result buffer.
    pub results: usize,
    // The list of records.
    pub records: usize,
}
