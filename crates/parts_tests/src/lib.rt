// Whether a call for parts is refused, and why, inside: `parts` calls it.
//
//   Counts    no part or too many, or too many points
//   NoPoints  there are no points
//   Lengths   weights, parts or the order are not one for each point
//   Weight    a weight is too heavy
//
// The refusal is that of the first test that passes (test_only); what follows where none does is Accepted.
#![tactic(auto)]

ghost use Rattle.std.specs.Prelude.{◌≡◌};
ghost use Rattle.rules.specs.Refusals.{first_of, number_in};
ghost use Rattle.requests.specs.Parts.{counts_unfit, parts_tests};

use requests::{TOP_PARTS, TOP_POINTS};
use rules::Refusal;

// Whether there is no part or too many, or too many points.
fn counts_unfit(n: u32, points: usize) -> bool
    ensures { result ≡ counts_unfit n points }
{
    n == 0 || n > TOP_PARTS || points > TOP_POINTS as usize
}

// Tests a call for n parts.
#[tactic(auto, unfolding(requests::specs::Parts::parts_tests))]
pub fn test(
    n: u32,
    indices: &[u64],
    weights: &[u64],
    parts: &[u32],
    order: &[u32],
) -> Result<(), Refusal>
    ensures { number_in result ≡ first_of (parts_tests n indices.now weights.now parts.now order.now) }
{
    let points = indices.len();
    if counts_unfit(n, points) {
        return Err(Refusal::Counts);
    }
    if points == 0 {
        return Err(Refusal::NoPoints);
    }
    if weights::lengths_off(points, &[weights.len(), parts.len(), order.len()]) {
        return Err(Refusal::Lengths);
    }
    if weights::weight_over(weights) {
        return Err(Refusal::Weight);
    }
    Ok(())
}
