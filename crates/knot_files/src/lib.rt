// A file of knots as people have them: what a command asks of it, a header or none, and the columns that hold the coordinates.
//
// Every function is proved safe, and to end; what is read the gate compares.
#![tactic(auto)]

pub mod asked;
pub mod header;
pub mod layout;
