// The running machine of a replay: what it knows of a grid from event to event, inside: `replay_run` calls it. An event costs the same
// however many cells there are, but for a halving.
//
// What is promised of it is `Runs`.
#![tactic(auto)]

ghost use Rattle.std.specs.Prelude.{◌≡◌, ◌≤◌, ◌<◌, ◌^◌, cond};
ghost use Rattle.rules.specs.Refusals.{top_depth, number_in};
ghost use Rattle.rules.specs.Halving.{splits_by, ids_by};
ghost use Rattle.requests.specs.Order.{at};
ghost use Rattle.requests.specs.Replay.{answer_to, some_broken};
ghost use Rattle.halving_laws.specs.Accepted.{Accepted};
ghost use Rattle.tally_laws.specs.Weighed.{Weighed, Named, heavier, Takes};
ghost use Rattle.replay_laws.specs.Events.{added, anew_after};
ghost use Rattle.replay_laws.specs.InForce.{InForce};
ghost use Rattle.blocks.specs.Blocks.{sides_of, rule_of};
ghost use Rattle.bounds.specs.Small.{top_sum, Small};
ghost use Rattle.watch.specs.Watched.{Watched};
ghost use Rattle.tallies.specs.Sums.{nothing};
ghost use Rattle.replay_state.specs.Runs.{Runs};

use blocks::Halving;
use bounds::Measure;
use rules::{Refusal, TOP_WEIGHT};
use tallies::Tally;
use watch::Watch;

// The sums, and the heaviest and the lightest part.
#[derive(Clone, Copy)]
pub struct Running {
    pub tally: Tally,
    pub watch: Watch,
}

// Tests an event: it is refused outside the grid, and where its cell would be too heavy.
fn test(weights: &[u64], cell: usize, amount: u64) -> Result<(), Refusal>
    ensures { number_in result ≡ answer_to weights.now cell amount }
{
    if weights.len() <= cell {
        return Err(Refusal::Cell);
    }
    if amount > TOP_WEIGHT {
        return Err(Refusal::Weight);
    }
    if weights[cell] > TOP_WEIGHT - amount {
        return Err(Refusal::Weight);
    }
    Ok(())
}

impl Running {
    // Takes all sums from nothing.
    fn count(&mut self, halving: Halving, weights: &[u64], ids: &[u32])
        requires none { self.old.tally ≡ nothing }
        requires weighed { Weighed (sides_of halving.grid) weights.now }
        requires named { Named 4096 (sides_of halving.grid) ids.now }
        requires depth_le_top_depth { halving.depth ≤ top_depth }
        ensures { Runs (rule_of halving) weights.now ids.now self.new }
    {
        self.tally.add_all(halving.grid.sides(), weights, ids);
        self.watch.find(halving.depth, &self.tally.parts);
    }

    // Halves a grid, and takes its sums, from sums of no cells. The grid is tested again, which costs little beside the halving; called without
    // its tests, from a second place, the halving would cost more from both.
    pub fn begin(&mut self, halving: Halving, weights: &[u64], splits: &mut [u32], ids: &mut [u32])
        requires none { self.old.tally ≡ nothing }
        requires accepted { Accepted (rule_of halving) weights.now splits.old ids.old }
        ensures splits { splits.new ≡ splits_by (rule_of halving) weights.now }
        ensures ids { ids.new ≡ ids_by (rule_of halving) weights.now }
        ensures runs { Runs (rule_of halving) weights.now ids.new self.new }
    {
        let _ = halving::rcb(halving, weights, splits, ids);
        self.count(halving, weights, ids);
    }

    // Halves a grid afresh, and takes its sums, whatever it knew.
    pub fn anew(&mut self, halving: Halving, weights: &[u64], splits: &mut [u32], ids: &mut [u32])
        requires { Accepted (rule_of halving) weights.now splits.old ids.old }
        ensures splits { splits.new ≡ splits_by (rule_of halving) weights.now }
        ensures ids { ids.new ≡ ids_by (rule_of halving) weights.now }
        ensures runs { Runs (rule_of halving) weights.now ids.new self.new }
    {
        self.tally.clear();
        self.begin(halving, weights, splits, ids);
    }

    // Adds an accepted event's amount to its cell, and to all that is known of the grid.
    fn accept(
        &mut self,
        halving: Halving,
        weights: &mut [u64],
        ids: &[u32],
        cell: usize,
        amount: u64,
    )
        requires weighed { (halving.depth ≤ top_depth) × Weighed (sides_of halving.grid) weights.old }
        requires named { Named (2 ^ halving.depth) (sides_of halving.grid) ids.now }
        requires runs { Runs (rule_of halving) weights.old ids.now self.old }
        requires takes { Takes weights.old cell amount }
        ensures weights { weights.new ≡ heavier weights.old cell amount }
        ensures runs { Runs (rule_of halving) (heavier weights.old cell amount) ids.now self.new }
    {
        self.tally
            .take(halving.grid.sides(), weights, ids, cell, amount);
        let part = ids[cell] as usize;
        self.watch.follow(halving.depth, part, &self.tally.parts);
    }

    // Whether a bound is broken for some part.
    fn broken(&self, depth: u32) -> bool
        requires small { Small depth self.now.tally.all self.now.tally.heaviest }
        requires watched { Watched (2 ^ depth) self.now.tally.parts self.now.watch.most self.now.watch.tree }
        requires most_bound { at self.now.tally.parts self.now.watch.most < top_sum }
        ensures { result ≡ some_broken depth (at self.now.tally.parts) self.now.tally.all self.now.tally.heaviest }
    {
        let measure = Measure {
            depth,
            all: self.tally.all,
            line: self.tally.heaviest,
        };
        self.watch.broken(measure, &self.tally.parts)
    }

    // Takes an event: a refused one changes nothing; after an accepted one a grid in which a bound is broken is halved afresh.
    pub fn step(
        &mut self,
        halving: Halving,
        weights: &mut [u64],
        splits: &mut [u32],
        ids: &mut [u32],
        cell: usize,
        amount: u64,
    ) -> Result<(), Refusal>
        requires in_force { InForce (rule_of halving) weights.old splits.old ids.old }
        requires runs { Runs (rule_of halving) weights.old ids.old self.old }
        ensures said { number_in result ≡ answer_to weights.old cell amount }
        ensures weights { weights.new ≡ added weights.old cell amount }
        ensures splits { splits.new ≡ cond (anew_after (rule_of halving) weights.old cell amount ids.old) (splits_by (rule_of halving) (added weights.old cell amount)) splits.old }
        ensures ids { ids.new ≡ cond (anew_after (rule_of halving) weights.old cell amount ids.old) (ids_by (rule_of halving) (added weights.old cell amount)) ids.old }
        ensures runs { Runs (rule_of halving) weights.new ids.new self.new }
    {
        test(weights, cell, amount)?;
        self.accept(halving, weights, ids, cell, amount);
        if self.broken(halving.depth) {
            self.anew(halving, weights, splits, ids);
        }
        Ok(())
    }
}
