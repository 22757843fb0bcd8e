// The index of every point on axes that are given: the knot of a point is its cell on each axis, its index that of the knot on the curve.
//
// A call tests the order, that there are points, and the lengths of the slices; then it asks, each question of all axes before the next, of the
// ends of the axes, of their records, and of the points (given_tests has the list). Only then does it write, one index for each point; after a
// refusal the index slice is as it was.
//
// The public functions of 2D and of 3D stay apart, and so do their parameters, a slice and an axis for each coordinate, since docs/PROMISES.md and
// the laws `index_2d_on_only`, `index_3d_on_only` and so on name each.
#![tactic(auto)]

ghost use Rattle.std.specs.Prelude.{◌≡◌, map, length};
ghost use Rattle.rules.specs.Refusals.{number_in};
ghost use Rattle.knots_given.specs.Given.{index_on2, index_on3, index_in2, index_in3};
ghost use Rattle.given_tests.specs.Placed.{given};
ghost use Rattle.knots_on.specs.On.{index_given};

use given_axis::record_in;
use given_tests::test_axes;
use indices::{Curve, Plane, Space, write};
use knots_tests::test_shape;
use points::Placed;
use rules::{Axis, Extent, Refusal};

// Writes the index of each point on a curve of as many dimensions as there are axes. Their number is told by a clause, as in `indices`.
fn index_on<const D: usize, C: Curve<D>>(
    axes: &[Placed],
    order: u32,
    indices: &mut [u64],
) -> Result<(), Refusal>
    requires all { length axes.now ≡ D }
    ensures value { number_in result ≡ (index_given C.TOP_ORDER C.index_at (map given axes.now) order indices.old).number }
    ensures indices_after { indices.new ≡ (index_given C.TOP_ORDER C.index_at (map given axes.now) order indices.old).indices }
{
    test_shape(C::TOP_ORDER, order, axes, indices.len())?;
    test_axes(axes, order)?;
    write::<D, C>(axes, order, indices);
    Ok(())
}

// Writes the index of each point on the axes of these records, in 2D, or gives a refusal.
#[tactic(auto, unfolding(crate::specs::On::index_given, knots_given::specs::Given::index_on2))]
pub fn index_2d_on(
    xs: &[f64],
    ys: &[f64],
    xaxis: Axis,
    yaxis: Axis,
    order: u32,
    indices: &mut [u64],
) -> Result<(), Refusal>
    ensures value { number_in result ≡ (index_on2 xs.now ys.now xaxis yaxis order indices.old).number }
    ensures indices_after { indices.new ≡ (index_on2 xs.now ys.now xaxis yaxis order indices.old).indices }
{
    let x = Placed {
        points: xs,
        axis: xaxis,
    };
    let y = Placed {
        points: ys,
        axis: yaxis,
    };
    index_on::<2, Plane>(&[x, y], order, indices)
}

// Writes the index of each point on the axes of these records, in 3D, or gives a refusal.
#[tactic(auto, unfolding(crate::specs::On::index_given, knots_given::specs::Given::index_on3))]
pub fn index_3d_on(
    xs: &[f64],
    ys: &[f64],
    zs: &[f64],
    xaxis: Axis,
    yaxis: Axis,
    zaxis: Axis,
    order: u32,
    indices: &mut [u64],
) -> Result<(), Refusal>
    ensures value { number_in result ≡ (index_on3 xs.now ys.now zs.now xaxis yaxis zaxis order indices.old).number }
    ensures indices_after { indices.new ≡ (index_on3 xs.now ys.now zs.now xaxis yaxis zaxis order indices.old).indices }
{
    let x = Placed {
        points: xs,
        axis: xaxis,
    };
    let y = Placed {
        points: ys,
        axis: yaxis,
    };
    let z = Placed {
        points: zs,
        axis: zaxis,
    };
    index_on::<3, Space>(&[x, y, z], order, indices)
}

// Writes the index of each point on the axes from low to high, in 2D, or gives a refusal.
#[tactic(auto, using(given_axis::proofs::SameEnds::files_the_same_2d))]
pub fn index_2d_in(
    xs: &[f64],
    ys: &[f64],
    xextent: Extent,
    yextent: Extent,
    order: u32,
    indices: &mut [u64],
) -> Result<(), Refusal>
    ensures value { number_in result ≡ (index_in2 xs.now ys.now xextent yextent order indices.old).number }
    ensures indices_after { indices.new ≡ (index_in2 xs.now ys.now xextent yextent order indices.old).indices }
{
    let xaxis = record_in(xextent, order);
    let yaxis = record_in(yextent, order);
    index_2d_on(xs, ys, xaxis, yaxis, order, indices)
}

// Writes the index of each point on the axes from low to high, in 3D, or gives a refusal.
#[tactic(auto, using(given_axis::proofs::SameEnds::files_the_same_3d))]
pub fn index_3d_in(
    xs: &[f64],
    ys: &[f64],
    zs: &[f64],
    xextent: Extent,
    yextent: Extent,
    zextent: Extent,
    order: u32,
    indices: &mut [u64],
) -> Result<(), Refusal>
    ensures value { number_in result ≡ (index_in3 xs.now ys.now zs.now xextent yextent zextent order indices.old).number }
    ensures indices_after { indices.new ≡ (index_in3 xs.now ys.now zs.now xextent yextent zextent order indices.old).indices }
{
    let xaxis = record_in(xextent, order);
    let yaxis = record_in(yextent, order);
    let zaxis = record_in(zextent, order);
    index_3d_on(xs, ys, zs, xaxis, yaxis, zaxis, order, indices)
}
