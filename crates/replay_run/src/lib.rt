// A replay from its tests to the last event, inside: `replay` calls it.
//
//   cells    the cell of each event
//   amounts  its amount
//   answers  its answer: 0, or the number of its refusal, since the C interface lends numbers and the clause `answers` speaks of them
//
// Weights, splits and ids are handed on as three slices: the borrow checker covers no call that lends two fields of a struct of borrows.
#![tactic(auto)]

ghost use Rattle.std.specs.Prelude.{◌≡◌, length};
ghost use Rattle.rules.specs.Refusals.{number_in};
ghost use Rattle.rules.specs.Halving.{splits_by, ids_by};
ghost use Rattle.requests.specs.Replay.{night, said_at, weights_at, splits_at, ids_at, replay};
ghost use Rattle.halving_laws.specs.Accepted.{Accepted};
ghost use Rattle.replay_laws.specs.InForce.{InForce};
ghost use Rattle.blocks.specs.Blocks.{rule_of};
ghost use Rattle.replay_state.specs.Runs.{Runs};

use blocks::Halving;
use replay_state::Running;
use rules::Refusal;
use tallies::Tally;
use watch::Watch;

// The number of an event's answer.
fn number(answer: Result<(), Refusal>) -> u32
    ensures { result ≡ number_in answer }
{
    match answer {
        Ok(()) => 0,
        Err(refusal) => u32::from(refusal),
    }
}

// Takes all events, from splits and ids of the weights. Amounts and answers go by index: an answer is written, and of a slice whose items are
// lent to be written nothing but its length is known afterwards.
fn run(
    running: &mut Running,
    halving: Halving,
    weights: &mut [u64],
    cells: &[u64],
    amounts: &[u64],
    answers: &mut [u32],
    splits: &mut [u32],
    ids: &mut [u32],
)
    requires lengths { (length amounts.now ≡ length cells.now) × (length answers.old ≡ length cells.now) }
    requires splits_value { (splits.old ≡ splits_by (rule_of halving) weights.old) × (ids.old ≡ ids_by (rule_of halving) weights.old) }
    requires in_force { InForce (rule_of halving) weights.old splits.old ids.old }
    requires runs { Runs (rule_of halving) weights.old ids.old running.old }
    ensures weights { weights.new ≡ weights_at (night weights.old cells.now amounts.now) (length cells.now) }
    ensures answers { answers.new ≡ said_at (night weights.old cells.now amounts.now) (length cells.now) }
    ensures splits { splits.new ≡ splits_at (rule_of halving) (night weights.old cells.now amounts.now) (length cells.now) }
    ensures ids { ids.new ≡ ids_at (rule_of halving) (night weights.old cells.now amounts.now) (length cells.now) }
{
    for (event, cell) in cells.iter().enumerate() {
        let answer = running.step(
            halving,
            weights,
            splits,
            ids,
            *cell as usize,
            amounts[event],
        );
        answers[event] = number(answer);
    }
}

// Halves the starting weights, and takes all events.
fn night(
    halving: Halving,
    weights: &mut [u64],
    cells: &[u64],
    amounts: &[u64],
    answers: &mut [u32],
    splits: &mut [u32],
    ids: &mut [u32],
)
    requires lengths { (length amounts.now ≡ length cells.now) × (length answers.old ≡ length cells.now) }
    requires accepted { Accepted (rule_of halving) weights.old splits.old ids.old }
    ensures weights { weights.new ≡ weights_at (night weights.old cells.now amounts.now) (length cells.now) }
    ensures answers { answers.new ≡ said_at (night weights.old cells.now amounts.now) (length cells.now) }
    ensures splits { splits.new ≡ splits_at (rule_of halving) (night weights.old cells.now amounts.now) (length cells.now) }
    ensures ids { ids.new ≡ ids_at (rule_of halving) (night weights.old cells.now amounts.now) (length cells.now) }
{
    let mut running = Running {
        tally: Tally::new(),
        watch: Watch {
            most: 0,
            tree: [0; 4096],
        },
    };
    running.begin(halving, weights, splits, ids);
    run(
        &mut running,
        halving,
        weights,
        cells,
        amounts,
        answers,
        splits,
        ids,
    );
}

// Replays a night on a grid: why the call is refused, or weights, answers, splits and ids written.
pub fn replay(
    halving: Halving,
    weights: &mut [u64],
    cells: &[u64],
    amounts: &[u64],
    answers: &mut [u32],
    splits: &mut [u32],
    ids: &mut [u32],
) -> Result<(), Refusal>
    ensures number { number_in result ≡ (replay (rule_of halving) weights.old cells.now amounts.now answers.old splits.old ids.old).number }
    ensures weights { weights.new ≡ (replay (rule_of halving) weights.old cells.now amounts.now answers.old splits.old ids.old).weights }
    ensures answers { answers.new ≡ (replay (rule_of halving) weights.old cells.now amounts.now answers.old splits.old ids.old).answers }
    ensures splits { splits.new ≡ (replay (rule_of halving) weights.old cells.now amounts.now answers.old splits.old ids.old).splits }
    ensures ids { ids.new ≡ (replay (rule_of halving) weights.old cells.now amounts.now answers.old splits.old ids.old).ids }
{
    replay_tests::tests(halving, weights, cells, amounts, answers, splits, ids)?;
    night(halving, weights, cells, amounts, answers, splits, ids);
    Ok(())
}
