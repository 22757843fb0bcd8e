// Which columns of a file hold the coordinates of knots, and what their words spell.
//
// Every function is proved safe, and to end; what is read the gate compares.
#![tactic(auto)]

pub mod columns;
pub mod spelled;
