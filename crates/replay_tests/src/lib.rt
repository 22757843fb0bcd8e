// Whether a replay is refused, and why, inside: `replay` calls it.
//
//   Edition   the edition is not 2
//   First     the first axis is not one of the grid's
//   Sides     a side is 0 or too long, or there are too many cells
//   Depth     there are too many levels
//   Lengths   weights or ids are not one for each cell, splits are not 2^depth - 1, or amounts or answers are not one for each event
//   Weight    a weight is too heavy
//
// The refusal is that of the first test that passes (tests_only). But for the edition and for the slices of events the tests are the halving's.
#![tactic(auto)]

ghost use Rattle.std.specs.Prelude.{◌≡◌, ◌||◌, eqb};
ghost use Rattle.rules.specs.Refusals.{first_of, number_in};
ghost use Rattle.requests.specs.Replay.{replay_tests};
ghost use Rattle.blocks.specs.Blocks.{rule_of};

use blocks::Halving;
use rules::{EDITION_2, Refusal};

// Whether the test of lengths comes before what a halving's tests gave.
fn lengths_first(tested: Result<(), Refusal>) -> bool
    ensures { result ≡ eqb (number_in tested) 0 || eqb (number_in tested) 11 }
{
    matches!(tested, Ok(()) | Err(Refusal::Weight))
}

// The tests of a replay, in their order.
pub fn tests(
    halving: Halving,
    weights: &[u64],
    cells: &[u64],
    amounts: &[u64],
    answers: &[u32],
    splits: &[u32],
    ids: &[u32],
) -> Result<(), Refusal>
    ensures { number_in result ≡ first_of (replay_tests (rule_of halving) weights.now cells.now amounts.now answers.now splits.now ids.now) }
{
    if halving.edition != EDITION_2 {
        return Err(Refusal::Edition);
    }
    let tested = halving_tests::tests(halving, weights, splits, ids);
    let events = [amounts.len(), answers.len()];
    if weights::lengths_off(cells.len(), &events) && lengths_first(tested) {
        return Err(Refusal::Lengths);
    }
    tested
}
