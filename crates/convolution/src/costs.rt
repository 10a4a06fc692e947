// What the readings of a step cost.

// What the reading of one mark costs for mark 0, and for mark 1.
#[derive(Clone, Copy, Default, Debug, PartialEq, Eq)]
pub struct MarkCosts {
    pub zero: u8,
    pub one: u8,
}

// The costs of one step, a mark for each generator.
#[derive(Clone, Copy, Default, Debug, PartialEq, Eq)]
pub struct StepCosts {
    pub marks: [MarkCosts; 3],
}
