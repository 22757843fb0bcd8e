// Whole numbers out of a file: the weights of a grid, the indices of a list, and what a list says of itself.
//
// Every function is proved safe, and to end; what is read the gate compares.
#![tactic(auto)]

pub mod grid;
pub mod list;
pub mod noted;
pub mod numbers;
