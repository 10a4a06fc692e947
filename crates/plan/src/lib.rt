// Plans: which stages stand on which carrier, as eleven numbers, and the plans that are listed.
#![tactic(auto)]

pub mod listed;
pub mod plan;
pub mod refusal;
