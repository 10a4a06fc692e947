// Published vectors and whole runs, as tests. There is nothing here but tests.
#![tactic(auto)]

#[cfg(test)]
mod outer_words;
#[cfg(test)]
mod randomiser;
#[cfg(test)]
mod stacks;
#[cfg(test)]
mod stations;

// The number of bytes of the longest vector.
pub const LONGEST: usize = 64;
