// The tree of cuts of a grid, inside: `halve` calls it.
//
//   a cut across one axis hands each half to the cut across the next, x, y, z and x again, with one level fewer
//
// The splits are the rule's tree (recurse_only): node i at place i - 1, its children 2i and 2i + 1; a node that is not cut keeps what
// stood there.
#![tactic(auto)]

ghost use Rattle.std.specs.Prelude.{◌≡◌, ◌<◌, length};
ghost use Rattle.rules.specs.Halving.{edition_of, fill};
ghost use Rattle.halving_laws.specs.Nodes.{Places};
ghost use Rattle.blocks.specs.Blocks.{sides_of, as_block};
ghost use Rattle.cuts.specs.Cuts.{Sound};

use cuts::{Cutting, Part};

// Writes the splits of `depth` levels below a part, the first across an axis; `sums` is the array that the lines' weights are filled into.
pub fn recurse(
    cutting: &Cutting,
    part: &Part,
    axis: usize,
    node: usize,
    depth: usize,
    splits: &mut [u32],
    sums: &mut [u64; 1024],
)
    requires sound { (axis < cutting.now.grid.axes) × Sound cutting.now.grid cutting.now.weights.now part.now }
    requires places { Places node depth (length splits.old) }
    ensures { splits.new ≡ fill (edition_of cutting.now.edition) (sides_of cutting.now.grid) cutting.now.weights.now depth axis (as_block cutting.now.grid.axes part.now.block) node splits.old }
{
    if depth == 0 || part.block.sides[axis] == 0 {
        return;
    }
    let cut = cutting.cut(part, axis, sums);
    splits[node - 1] = cut.split;
    let next = (axis + 1) % cutting.grid.axes;
    recurse(cutting, &cut.first, next, 2 * node, depth - 1, splits, sums);
    recurse(
        cutting,
        &cut.second,
        next,
        2 * node + 1,
        depth - 1,
        splits,
        sums,
    );
}
