// What the programs that people run share: files read whole (`files`), their lines and fields (`source`), where lines start that are kept
// (`starts`), and what is wrong with them (`faults`).
//
// Every function is proved safe, and to end; what is written no contract can say, and the gate compares it.
#![tactic(auto)]

pub mod faults;
pub mod files;
pub mod source;
pub mod starts;
