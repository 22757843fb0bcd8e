// Points divided along the curve (`division`), what each weighs by a column of its line (`weighed`), and what the parts hold (`sums`).
//
// Every function is proved safe, and to end; what is read the gate compares.
#![tactic(auto)]

pub mod division;
pub mod sums;
pub mod weighed;
