// What the tests of grids, points and events have in common, inside: `halving_tests`, `parts_tests` and `replay_tests` call it.
#![tactic(auto)]

ghost use Rattle.std.specs.Prelude.{◌≡◌};
ghost use Rattle.rules.specs.Refusals.{weight_over, lengths_off};

use rules::TOP_WEIGHT;

// Whether a weight is too heavy.
pub fn weight_over(weights: &[u64]) -> bool
    ensures { result ≡ weight_over weights.now }
{
    weights.iter().any(|weight| *weight > TOP_WEIGHT)
}

// Whether some length is not n.
pub fn lengths_off(n: usize, lengths: &[usize]) -> bool
    ensures { result ≡ lengths_off n lengths.now }
{
    lengths.iter().any(|length| *length != n)
}
