// A bench night replayed: a grid is halved by edition 2, and then each event of a recorded trace adds an amount to a cell. After each
// accepted event the two bounds of demand 3 are tested for all ids in force, exactly, and where one is broken the grid is halved afresh.
//
//   halving  as of `halving`, its edition being 2
//   weights  one for each cell; at the end its start plus the accepted amounts
//   cells    the number of each event's cell; an event outside the grid is answered 20
//   amounts  one for each event; an event that would take its cell over 16,777,215 is answered 11
//   answers  one for each event, 0 where it is accepted, else the number of its refusal, since the C interface lends numbers and the
//            clause `answers` speaks of them; a refused event changes nothing else
//   splits   those of the last halving, as of `halving`
//   ids      those of the last halving, one for each cell
//
// A caller may rely on these laws: one answer and one set of slices keep the promise (replay_2d_only, replay_3d_only); the ids in force
// meet demand 3 after each event, by the weights of that moment (in_force_after of replay_laws), so that at the end they meet it by
// today's weights; a night in two pieces has the weights and answers of the whole (second_weights, second_answers), but its second
// piece begins with a halving of its own, so that the ids may be others (ids_not_in_pieces).
//
// Two calls name the dimension and take each slice alone, since the C interface does, and the two laws speak of each call.
#![tactic(auto)]

ghost use Rattle.std.specs.Prelude.{◌≡◌};
ghost use Rattle.rules.specs.Refusals.{number_in};
ghost use Rattle.rules.specs.Halving.{halving2, halving3};
ghost use Rattle.requests.specs.Replay.{replay};

use blocks::Halving;
use rules::{Halving2, Halving3, Refusal};

// Replays a night on a grid of width times height cells: why the call is refused, or weights, answers, splits and ids written.
pub fn replay_2d(
    halving: Halving2,
    weights: &mut [u64],
    cells: &[u64],
    amounts: &[u64],
    answers: &mut [u32],
    splits: &mut [u32],
    ids: &mut [u32],
) -> Result<(), Refusal>
    ensures number { number_in result ≡ (replay (halving2 halving) weights.old cells.now amounts.now answers.old splits.old ids.old).number }
    ensures weights { weights.new ≡ (replay (halving2 halving) weights.old cells.now amounts.now answers.old splits.old ids.old).weights }
    ensures answers { answers.new ≡ (replay (halving2 halving) weights.old cells.now amounts.now answers.old splits.old ids.old).answers }
    ensures splits { splits.new ≡ (replay (halving2 halving) weights.old cells.now amounts.now answers.old splits.old ids.old).splits }
    ensures ids { ids.new ≡ (replay (halving2 halving) weights.old cells.now amounts.now answers.old splits.old ids.old).ids }
{
    let flat = Halving::from(halving);
    replay_run::replay(flat, weights, cells, amounts, answers, splits, ids)
}

// Replays a night on a grid of width times height times layers cells: why the call is refused, or weights, answers, splits and ids written.
pub fn replay_3d(
    halving: Halving3,
    weights: &mut [u64],
    cells: &[u64],
    amounts: &[u64],
    answers: &mut [u32],
    splits: &mut [u32],
    ids: &mut [u32],
) -> Result<(), Refusal>
    ensures number { number_in result ≡ (replay (halving3 halving) weights.old cells.now amounts.now answers.old splits.old ids.old).number }
    ensures weights { weights.new ≡ (replay (halving3 halving) weights.old cells.now amounts.now answers.old splits.old ids.old).weights }
    ensures answers { answers.new ≡ (replay (halving3 halving) weights.old cells.now amounts.now answers.old splits.old ids.old).answers }
    ensures splits { splits.new ≡ (replay (halving3 halving) weights.old cells.now amounts.now answers.old splits.old ids.old).splits }
    ensures ids { ids.new ≡ (replay (halving3 halving) weights.old cells.now amounts.now answers.old splits.old ids.old).ids }
{
    let solid = Halving::from(halving);
    replay_run::replay(solid, weights, cells, amounts, answers, splits, ids)
}
