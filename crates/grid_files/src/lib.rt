// A grid as a file has it: its weights and shape, its halving and why that is refused, what is printed in its shape, and what its parts weigh.
//
// Every function is proved safe, and to end; what is read and written the gate compares.
#![tactic(auto)]

pub mod file;
pub mod halved;
pub mod listing;
pub mod shape;
pub mod sums;
