// Knots out of the lines of a file (`knots`, `values`), and the box around them (`sides`).
//
// Every function is proved safe, and to end; what is read the gate compares.
#![tactic(auto)]

pub mod knots;
pub mod sides;
mod values;
