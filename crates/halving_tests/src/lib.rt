// Whether a halving is refused, and why, inside: `halving` and the tests of replays call it.
//
//   Edition   the edition is neither 1 nor 2
//   First     the first axis is not one of the grid's
//   Sides     a side is 0 or too long, or there are too many cells
//   Depth     there are too many levels
//   Lengths   weights or ids are not one for each cell, or splits are not 2^depth - 1
//   Weight    a weight is too heavy
//
// The refusal is that of the first test that passes (tests_only); what follows where none does is Accepted. A grid in 2D is tested as one of
// one layer (one_layer).
#![tactic(auto)]

ghost use Rattle.std.specs.Prelude.{◌≡◌, ◌≤◌, ◌-◌, ◌^◌, ◌||◌, [], ◌∷◌, length};
ghost use Rattle.rules.specs.Sums.{any};
ghost use Rattle.rules.specs.Refusals.{top_depth, first_of, number_in, edition_unknown, side_unfit, sides_unfit, lengths_off, grid_tests};
ghost use Rattle.rules.specs.Halving.{refusal_of};
ghost use Rattle.blocks.specs.Blocks.{rule_of};

use blocks::{Grid, Halving};
use rules::{EDITION_1, EDITION_2, Refusal, TOP_CELLS, TOP_DEPTH, TOP_SIDE};

// Whether an edition is neither 1 nor 2.
fn edition_unknown(edition: u32) -> bool
    ensures { result ≡ edition_unknown edition }
{
    !matches!(edition, EDITION_1 | EDITION_2)
}

// Whether a side is 0 or too long.
fn side_unfit(sides: &[usize]) -> bool
    ensures { result ≡ any side_unfit sides.now }
{
    sides
        .iter()
        .any(|side| *side == 0 || *side > TOP_SIDE as usize)
}

// Whether one of all three sides is unfit or there are too many cells.
#[tactic(auto, using(crate::proofs::ThreeSides::none_unfit, crate::proofs::ThreeSides::as_many_cells))]
fn sides_unfit(grid: Grid) -> bool
    ensures { result ≡ sides_unfit grid.sides }
{
    side_unfit(&grid.sides) || grid.cells() > TOP_CELLS as usize
}

// Whether weights or ids are not one for each of the cells, or splits are not 2^depth - 1.
#[tactic(auto, using(crate::proofs::Powers::power))]
fn lengths_off(cells: usize, depth: u32, weights: &[u64], splits: &[u32], ids: &[u32]) -> bool
    requires { depth ≤ top_depth }
    ensures { result ≡ lengths_off cells (length weights.now ∷ length ids.now ∷ []) || lengths_off (2 ^ depth - 1) (length splits.now ∷ []) }
{
    weights::lengths_off(cells, &[weights.len(), ids.len()])
        || weights::lengths_off((1usize << depth) - 1, &[splits.len()])
}

// The tests of a halving, its three sides, its weights, and the slices for its splits and ids, in their order.
#[tactic(auto, using(crate::proofs::ThreeSides::none_unfit, crate::proofs::ThreeSides::as_many_cells), unfolding(rules::specs::Refusals::grid_tests))]
fn refusal(halving: Halving, weights: &[u64], splits: &[u32], ids: &[u32]) -> Result<(), Refusal>
    ensures { number_in result ≡ first_of (grid_tests halving.edition halving.grid.axes halving.first halving.grid.sides halving.depth weights.now (length ids.now) (length splits.now)) }
{
    let grid = halving.grid;
    if edition_unknown(halving.edition) {
        return Err(Refusal::Edition);
    }
    if halving.first >= grid.axes {
        return Err(Refusal::First);
    }
    if sides_unfit(grid) {
        return Err(Refusal::Sides);
    }
    if halving.depth > TOP_DEPTH {
        return Err(Refusal::Depth);
    }
    if lengths_off(grid.cells(), halving.depth, weights, splits, ids) {
        return Err(Refusal::Lengths);
    }
    if weights::weight_over(weights) {
        return Err(Refusal::Weight);
    }
    Ok(())
}

// The tests of a halving. The slices come one by one: so the C interface lends them, and what lent them has them back changed or not.
pub fn tests(halving: Halving, weights: &[u64], splits: &[u32], ids: &[u32]) -> Result<(), Refusal>
    ensures { number_in result ≡ refusal_of (rule_of halving) weights.now splits.now ids.now }
{
    refusal(halving, weights, splits, ids)
}
