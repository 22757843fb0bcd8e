// What a list of indices looks like: the line that says what it is, and each knot's line behind its index.
//
// Every function is proved safe, and to end; what is written no contract can say, and the gate compares it.
#![tactic(auto)]

pub mod lists;
pub mod notes;
