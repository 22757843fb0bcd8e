// What the points of a call have on one axis: whether some value is unfit, and the axis from their lowest to their highest. Points and their axis are a
// `Placed`, and the points of a call a slice of these, from x on; of a call that is given no axis, a slice of slices (`Points` is what both have).
//
// A caller may rely on `thin` and `over` (proofs/Axes.antt): the axis of fit points is refused where it is thin, and else made over them, and
// takes them (specs/Takes.antt): it accepts each of them, and its cell lies below 2^order.
#![tactic(auto)]

ghost use Rattle.std.specs.Prelude.{◌≡◌, List, Float, map};
ghost use Rattle.rules.specs.Sums.{any};
ghost use Rattle.rules.specs.Refusals.{value_unfit};
ghost use Rattle.rules.specs.Axis.{make_axis, extent_of};
ghost use Rattle.rules.specs.Knots.{some_unfit};

use axis_make::{make_axis, unfit};
use extent::extent_of;
use rules::{Axis, Refusal};

// Points, and the axis that they lie on.
#[derive(Clone, Copy)]
pub struct Placed<'a> {
    pub points: &'a [f64],
    pub axis: Axis,
}

// No points: what an ArrayVec has in a place that is not filled. By hand, since an axis has no default.
impl<'a> Default for Placed<'a> {
    fn default() -> Placed<'a> {
        Placed {
            points: &[],
            axis: Axis::Flat {
                low: 0.0,
                high: 0.0,
                order: 0,
            },
        }
    }
}

// What has points on one axis.
pub trait Points {
    ghost points_of: { Self → List Float };

    fn points(&self) -> &[f64]
        ensures { result.now ≡ points_of self.now };
}

impl<'a> Points for &'a [f64] {
    ghost points_of = { λ points. points.now };

    fn points(&self) -> &[f64] {
        self
    }
}

impl<'a> Points for Placed<'a> {
    ghost points_of = { λ placed. placed.points.now };

    fn points(&self) -> &[f64] {
        self.points
    }
}

// Whether some value is unfit.
pub fn any_unfit(xs: &[f64]) -> bool
    ensures { result ≡ any value_unfit xs.now }
{
    xs.iter().any(|x| unfit(*x))
}

// Whether some value on some axis is unfit.
pub fn some_unfit<P: Points>(axes: &[P]) -> bool
    ensures { result ≡ some_unfit (map P.points_of axes.now) }
{
    axes.iter().any(|axis| any_unfit(axis.points()))
}

// The axis from the lowest to the highest of the points, or its refusal.
pub fn axis_over(xs: &[f64], order: u32) -> Result<Axis, Refusal>
    ensures { result ≡ make_axis (extent_of xs.now).low (extent_of xs.now).high order }
{
    let extent = extent_of(xs);
    make_axis(extent.low, extent.high, order)
}
