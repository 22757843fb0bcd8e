// Parts along the curve: a part of n for each point, by its index and by the weights of all points, and the points in order.
//
//   indices  one for each point
//   weights  one for each point
//   parts    one for each point: how many of the n - 1 splits are strictly below its index; split i is the smallest index
//            present such that n times the weight at or below it reaches i times the weight of all
//   order    the numbers of the points in order of index, equal indices by number
//
// A caller may rely on these laws: one number and one pair of slices keep the promise (parts_along_only); n times the weight of
// a part is at most the weight of all and n times the heaviest weight on one index, the weights of the parts add up to the
// whole, each part is below n, a part does not fall along the curve, and points that share an index share a part (fair_parts);
// the order has each point once, in order, and no other list does (order_list, order_unique).
#![tactic(auto)]

ghost use Rattle.std.specs.Prelude.{◌≡◌};
ghost use Rattle.rules.specs.Refusals.{number_in};
ghost use Rattle.requests.specs.Parts.{parts_along};

use rules::Refusal;

// A part of n for each point, and the points in order: why the call is refused, or parts and order written.
pub fn parts_along(
    n: u32,
    indices: &[u64],
    weights: &[u64],
    parts: &mut [u32],
    order: &mut [u32],
) -> Result<(), Refusal>
    ensures number { number_in result ≡ (parts_along n indices.now weights.now parts.old order.old).number }
    ensures parts { parts.new ≡ (parts_along n indices.now weights.now parts.old order.old).parts }
    ensures order { order.new ≡ (parts_along n indices.now weights.now parts.old order.old).order }
{
    parts_tests::test(n, indices, weights, parts, order)?;
    sort::in_order(indices, order);
    shares::assign(n, indices, weights, order, parts);
    Ok(())
}
