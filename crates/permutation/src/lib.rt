// Rearranging lent slices by a permutation of their places.
#![tactic(auto)]

pub mod arrange;
pub mod grid;
pub mod transpose;
