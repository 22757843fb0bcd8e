// What a block weighs, and where it is cut across an axis, inside: the tree and `halve` call it.
//
// The cut is the rule's (cut_on), and both parts that it leaves lie in the grid and weigh what is said of them (first_sound, second_sound). A cut fills
// the first sums with the lines' weights, and those behind stay (cut_only).
#![tactic(auto)]

mod cutting;

pub use cutting::{Cut, Cutting, Part};
