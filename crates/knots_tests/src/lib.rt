// What a call on points tests before it asks of an axis, inside: `knots_over` calls it, and `knots_on` its first three tests.
//
//   Order      the order is over the highest
//   NoPoints   there are no points
//   Lengths    a slice is not as long as that of x
//   Value      a value is unfit
//
// A refusal is that of the first test that passes (test_points_only, test_shape_only; of lengths alone test_lengths_only).
#![tactic(auto)]

ghost use Rattle.std.specs.Prelude.{◌≡◌, [], ◌∷◌, map};
ghost use Rattle.rules.specs.Sums.{any};
ghost use Rattle.rules.specs.Refusals.{answer_by};
ghost use Rattle.knots_tests.specs.Tests.{differs, count, lengths, shape_tests, point_tests};

use points::{Points, some_unfit};
use rules::Refusal;

// Whether the points on some axis are not n.
fn lengths_differ<P: Points>(axes: &[P], n: usize) -> bool
    ensures { result ≡ any (λ axis. differs n (P.points_of axis)) axes.now }
{
    axes.iter().any(|axis| axis.points().len() != n)
}

// The tests of the order and of the slices' lengths, of lengths alone: n points, and so many ys, zs and indices.
#[tactic(auto, using(std::proofs::Common::tests), unfolding(crate::specs::Tests::shape_tests, rules::specs::Sums::any))]
pub fn test_lengths(
    most: u32,
    order: u32,
    n: usize,
    ys: usize,
    zs: usize,
    indices: usize,
) -> Result<(), Refusal>
    ensures { result ≡ answer_by (shape_tests most order n (ys ∷ zs ∷ indices ∷ [])) tt }
{
    if order > most {
        return Err(Refusal::Order);
    }
    if n == 0 {
        return Err(Refusal::NoPoints);
    }
    if ys != n || zs != n || indices != n {
        return Err(Refusal::Lengths);
    }
    Ok(())
}

// The tests of the order and of the slices' lengths: points for each axis, from x on, and m indices. The points of other axes than x, as many
// as there are, are compared here.
#[tactic(auto, using(std::proofs::Common::tests), unfolding(crate::specs::Tests::shape_tests))]
pub fn test_shape<P: Points>(most: u32, order: u32, axes: &[P], m: usize) -> Result<(), Refusal>
    ensures { result ≡ answer_by (shape_tests most order (count (map P.points_of axes.now)) (lengths (map P.points_of axes.now) m)) tt }
{
    let Some((first, others)) = axes.split_first() else {
        return test_lengths(most, order, 0, 0, 0, m);
    };
    let n = first.points().len();
    test_lengths(most, order, n, n, n, m)?;
    if lengths_differ(others, n) {
        return Err(Refusal::Lengths);
    }
    Ok(())
}

// The tests of points, a slice of them for each axis, from x on, and of m indices, that need no axis.
pub fn test_points(most: u32, order: u32, axes: &[&[f64]], m: usize) -> Result<(), Refusal>
    ensures { result ≡ answer_by (point_tests most order (map (λ xs. xs.now) axes.now) m) tt }
{
    test_shape(most, order, axes, m)?;
    if some_unfit(axes) {
        return Err(Refusal::Value);
    }
    Ok(())
}
