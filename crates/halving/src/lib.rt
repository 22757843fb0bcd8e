// Halving a grid: recursive coordinate bisection, cutting across x, y in turn in 2D, and across x, y, z in 3D.
//
//   halving  the edition, the sides, the first axis and the depth; Halving2::of and Halving3::of name no edition and no first
//            axis, which means 1 and y. Edition 1 drops the fraction of the least that a left part should weigh, edition 2
//            rounds it up; the first cut is across the first axis, 0 for x, 1 for y, 2 for z, and the others follow in turn
//   weights  one for each cell: cell (x, y, z) stands at x + width * (y + height * z)
//   splits   node i at place i - 1, the root being 1 and the children of i being 2i and 2i + 1: the cut in grid
//            coordinates, or UNCUT
//   ids      one for each cell, in the order of the weights
//
// A refused call writes nothing. A caller may rely on these laws: one answer and one pair of slices keep the promise (rcb_only, rcb_2d_only,
// rcb_3d_only); each id is below 2^depth (ids_below); the weights of the ids add up to the whole and keep to their bounds (demand_3_in_2d,
// demand_3_in_3d); each cut lies in its block, and a node is not cut just where its side is 0 or its parent is not cut
// (structured); in 2D, nothing but the first axis tells x from y (mirror).
#![tactic(auto)]

ghost use Rattle.std.specs.Prelude.{◌≡◌};
ghost use Rattle.rules.specs.Refusals.{number_in};
ghost use Rattle.rules.specs.Halving.{halving2, halving3, halve};
ghost use Rattle.blocks.specs.Blocks.{rule_of};

use blocks::Halving;
use rules::{Halving2, Halving3, Refusal};

// Halves a grid, of a plane or of space by one type: the tests, and then, where none refuses, splits and ids written. Replays call it too. The
// slices are arguments beside the halving, as the C interface lends them.
pub fn rcb(
    halving: Halving,
    weights: &[u64],
    splits: &mut [u32],
    ids: &mut [u32],
) -> Result<(), Refusal>
    ensures number { number_in result ≡ (halve (rule_of halving) weights.now splits.old ids.old).number }
    ensures splits { splits.new ≡ (halve (rule_of halving) weights.now splits.old ids.old).splits }
    ensures ids { ids.new ≡ (halve (rule_of halving) weights.now splits.old ids.old).ids }
{
    halving_tests::tests(halving, weights, splits, ids)?;
    halve::halve(halving, weights, splits, ids);
    Ok(())
}

// Halves a grid of width times height cells. This and the next stand apart, since README and docs/PROMISES.md name both.
pub fn rcb_2d(
    halving: Halving2,
    weights: &[u64],
    splits: &mut [u32],
    ids: &mut [u32],
) -> Result<(), Refusal>
    ensures number { number_in result ≡ (halve (halving2 halving) weights.now splits.old ids.old).number }
    ensures splits { splits.new ≡ (halve (halving2 halving) weights.now splits.old ids.old).splits }
    ensures ids { ids.new ≡ (halve (halving2 halving) weights.now splits.old ids.old).ids }
{
    rcb(Halving::from(halving), weights, splits, ids)
}

// Halves a grid of width times height times layers cells.
pub fn rcb_3d(
    halving: Halving3,
    weights: &[u64],
    splits: &mut [u32],
    ids: &mut [u32],
) -> Result<(), Refusal>
    ensures number { number_in result ≡ (halve (halving3 halving) weights.now splits.old ids.old).number }
    ensures splits { splits.new ≡ (halve (halving3 halving) weights.now splits.old ids.old).splits }
    ensures ids { ids.new ≡ (halve (halving3 halving) weights.now splits.old ids.old).ids }
{
    rcb(Halving::from(halving), weights, splits, ids)
}
