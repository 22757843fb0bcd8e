// Halvings, grids and their blocks, which know nothing of weights, inside: what tests, halves and replays is handed them.
//
//   axis     a number: x is 0, y is 1, z is 2, and so is every number after it (across)
//   grid     two or three axes, and three sides: a grid in 2D has one layer
//   cells    cell (x, y, z) stands at x + width * (y + height * z)
//   block    its low corner and its sides; a cut across an axis leaves the lines before it and the rest
//
// A halving stands for one of the rules (rule_of), and a block for a block of the rules (as_block), its parts for the parts of that
// (block_left, block_right).
#![tactic(auto)]

mod block;
mod grid;
mod halving;

pub use block::{SubGrid, across};
pub use grid::Grid;
pub use halving::Halving;
