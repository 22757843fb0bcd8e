// The index of every point: the knot of a point is its cell on the axis over the points of each coordinate, its index that of the knot on the curve.
//
// A call tests, each over all points and axes before the next: the order, that there are points, the lengths of the slices, the values,
// the axes. Only then does it write, one index for each point; after a refusal the index slice is as it was.
//
// The public functions of 2D and of 3D stay apart, since docs/PROMISES.md and the laws `index_2d_only`, `index_3d_only` and so on name each.
#![tactic(auto)]

ghost use Rattle.std.specs.Prelude.{◌≡◌, ◌<◌, ◌≤◌, map, length};
ghost use Rattle.rules.specs.Refusals.{number_in};
ghost use Rattle.rules.specs.Curve.{default_order};
ghost use Rattle.rules.specs.Knots.{index_all2, index_all3};
ghost use Rattle.knots_over.specs.Over.{index_all};

use arrayvec::ArrayVec;
use indices::{Curve, Plane, Space, write};
use knots_tests::test_points;
use points::{Placed, axis_over};
use rules::{DEFAULT_ORDER, Refusal};

// Writes the index of each point on the axes over the points, a slice of them for each axis, on a curve of as many dimensions. Their
// number is told by a clause: an array of slices, as long as a const parameter says, is not covered by the borrow checker.
fn index_over<const D: usize, C: Curve<D>>(
    axes: &[&[f64]],
    order: u32,
    indices: &mut [u64],
) -> Result<(), Refusal>
    requires all { length axes.now ≡ D }
    ensures value { number_in result ≡ (index_all C.TOP_ORDER C.index_at (map (λ xs. xs.now) axes.now) order indices.old).number }
    ensures indices_after { indices.new ≡ (index_all C.TOP_ORDER C.index_at (map (λ xs. xs.now) axes.now) order indices.old).indices }
{
    test_points(C::TOP_ORDER, order, axes, indices.len())?;
    let mut placed = ArrayVec::<Placed, 3>::new();
    for points in axes {
        let axis = axis_over(points, order)?;
        placed.push(Placed { points, axis });
    }
    write::<D, C>(&placed, order, indices);
    Ok(())
}

// Writes the index of each point, in 2D, or gives a refusal.
#[tactic(auto, unfolding(crate::specs::Over::index_all, rules::specs::Knots::index_all2))]
pub fn index_2d(xs: &[f64], ys: &[f64], order: u32, indices: &mut [u64]) -> Result<(), Refusal>
    ensures value { number_in result ≡ (index_all2 xs.now ys.now order indices.old).number }
    ensures indices_after { indices.new ≡ (index_all2 xs.now ys.now order indices.old).indices }
{
    index_over::<2, Plane>(&[xs, ys], order, indices)
}

// Writes the indices of the points at the default order, in 2D, or gives a refusal.
pub fn index_2d_default(xs: &[f64], ys: &[f64], indices: &mut [u64]) -> Result<(), Refusal>
    ensures value { number_in result ≡ (index_all2 xs.now ys.now default_order indices.old).number }
    ensures indices_after { indices.new ≡ (index_all2 xs.now ys.now default_order indices.old).indices }
{
    index_2d(xs, ys, DEFAULT_ORDER, indices)
}

// Writes the index of each point, in 3D, or gives a refusal.
#[tactic(auto, unfolding(crate::specs::Over::index_all, rules::specs::Knots::index_all3))]
pub fn index_3d(
    xs: &[f64],
    ys: &[f64],
    zs: &[f64],
    order: u32,
    indices: &mut [u64],
) -> Result<(), Refusal>
    ensures value { number_in result ≡ (index_all3 xs.now ys.now zs.now order indices.old).number }
    ensures indices_after { indices.new ≡ (index_all3 xs.now ys.now zs.now order indices.old).indices }
{
    index_over::<3, Space>(&[xs, ys, zs], order, indices)
}

// Writes the indices of the points at the default order, in 3D, or gives a refusal.
pub fn index_3d_default(
    xs: &[f64],
    ys: &[f64],
    zs: &[f64],
    indices: &mut [u64],
) -> Result<(), Refusal>
    ensures value { number_in result ≡ (index_all3 xs.now ys.now zs.now default_order indices.old).number }
    ensures indices_after { indices.new ≡ (index_all3 xs.now ys.now zs.now default_order indices.old).indices }
{
    index_3d(xs, ys, zs, DEFAULT_ORDER, indices)
}
