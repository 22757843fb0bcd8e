// The splits and ids of a grid that is not refused, inside: `halving` and replays call it.
//
// The splits are the rule's, and the ids those that the rule makes of them (halve_only). The first axis is where the tree begins, and
// where the ids' way begins.
#![tactic(auto)]

ghost use Rattle.std.specs.Prelude.{◌≡◌};
ghost use Rattle.rules.specs.Halving.{splits_by, ids_by};
ghost use Rattle.halving_laws.specs.Accepted.{Accepted};
ghost use Rattle.blocks.specs.Blocks.{rule_of};

use blocks::Halving;
use cuts::{Cutting, Part};
use rules::UNCUT;

// Writes the splits and ids of an accepted grid. The slices are arguments beside the halving, as the C interface lends them.
pub fn halve(halving: Halving, weights: &[u64], splits: &mut [u32], ids: &mut [u32])
    requires { Accepted (rule_of halving) weights.now splits.old ids.old }
    ensures splits { splits.new ≡ splits_by (rule_of halving) weights.now }
    ensures ids { ids.new ≡ ids_by (rule_of halving) weights.now }
{
    splits.fill(UNCUT);
    let cutting = Cutting {
        weights,
        grid: halving.grid,
        edition: halving.edition,
    };
    let block = halving.grid.whole();
    let part = Part {
        block,
        total: cutting.weight(&block),
    };
    let mut sums = [0u64; 1024];
    tree::recurse(
        &cutting,
        &part,
        halving.first,
        1,
        halving.depth as usize,
        splits,
        &mut sums,
    );
    ids::write_ids(&halving, splits, ids);
}
