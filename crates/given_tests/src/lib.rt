// What is asked of axes that are given and of their points, inside: `knots_on` calls it.
//
//   Value     an end of an axis is unfit
//   Outside   low is above high
//   Thin      an axis is thin
//   Outside   its record is made up, or of another order than the call's
//   Value     a coordinate is unfit
//   Outside   a coordinate lies outside low to high
//
// A call asks each question of all axes before the next, so that its refusal is that of the earliest question that passes of some axis: the
// least of the places of the axes, each taken alone (proofs/Places.antt, `number_at_the_earliest`, `place_of_more`). Axes of which none passes take
// their points (specs/Takes.antt of points).
#![tactic(auto)]

ghost use Rattle.std.specs.Prelude.{◌≡◌, ◌∷◌, [], false, map, All, length, Ok};
ghost use Rattle.rules.specs.Sums.{any};
ghost use Rattle.rules.specs.Refusals.{value_unfit, reversed, axis_thin, outside, answer_by, number_in};
ghost use Rattle.rules.specs.Axis.{low_of, high_of, make_axis};
ghost use Rattle.knots_given.specs.Given.{foreign, questions, asked_of};
ghost use Rattle.points.specs.Cells.{Taken};
ghost use Rattle.given_tests.specs.Placed.{given};
ghost use Rattle.given_tests.specs.Places.{place, number_at_place};

use axis_cell::{high_of, low_of, made_up, order_of};
use axis_make::{thin, unfit};
use points::{Placed, some_unfit};
use rules::{Axis, Refusal};

// Whether an end of some axis is unfit.
fn ends_unfit(axes: &[Placed]) -> bool
    ensures { result ≡ any (λ g. any value_unfit (low_of g.axis ∷ high_of g.axis ∷ [])) (map given axes.now) }
{
    axes.iter().any(|placed| unfit(low_of(placed.axis)) || unfit(high_of(placed.axis)))
}

// Whether the low end of some axis is above the high one.
fn ends_reversed(axes: &[Placed]) -> bool
    ensures { result ≡ any (λ g. reversed (low_of g.axis) (high_of g.axis)) (map given axes.now) }
{
    axes.iter()
        .any(|placed| high_of(placed.axis) < low_of(placed.axis))
}

// Whether some axis is thin.
fn some_thin(axes: &[Placed]) -> bool
    ensures { result ≡ any (λ g. axis_thin (low_of g.axis) (high_of g.axis)) (map given axes.now) }
{
    axes.iter()
        .any(|placed| thin(low_of(placed.axis), high_of(placed.axis)))
}

// Whether a record is made up or of another order; where it is neither, making it anew at this order gives it back.
fn is_foreign(axis: Axis, order: u32) -> bool
    ensures value { result ≡ foreign order axis }
    ensures order_value { result ≡ false → make_axis (low_of axis) (high_of axis) order ≡ Ok axis }
{
    if made_up(axis) {
        return true;
    }
    order_of(axis) != order
}

// Whether some record is made up or of another order; where none is, making each anew at this order gives it back.
fn some_foreign(axes: &[Placed], order: u32) -> bool
    ensures value { result ≡ any (λ g. foreign order g.axis) (map given axes.now) }
    ensures order_value { result ≡ false → All (λ p. make_axis (low_of p.axis) (high_of p.axis) order ≡ Ok p.axis) axes.now }
{
    axes.iter().any(|placed| is_foreign(placed.axis, order))
}

// Whether some value lies outside low to high.
fn any_outside(xs: &[f64], low: f64, high: f64) -> bool
    ensures { result ≡ any (outside low high) xs.now }
{
    xs.iter().any(|x| *x < low || high < *x)
}

// Whether some value lies outside the ends of its axis.
fn points_outside(axes: &[Placed]) -> bool
    ensures { result ≡ any (λ g. any (outside (low_of g.axis) (high_of g.axis)) g.points) (map given axes.now) }
{
    axes.iter().any(|placed| any_outside(placed.points, low_of(placed.axis), high_of(placed.axis)))
}

// What is asked of the axes and their points; where nothing passes, each axis takes its points.
#[tactic(auto, using(std::proofs::Common::tests, crate::proofs::OneAxis::given_unfit), unfolding(knots_given::specs::Given::asked_of, knots_given::specs::Given::questions))]
fn asked(axes: &[Placed], order: u32) -> Result<(), Refusal>
    ensures answer { result ≡ answer_by (asked_of (map given axes.now) (questions order)) tt }
    ensures takes { result ≡ Ok tt → All (λ p. Taken (length p.points.now) order p) axes.now }
{
    if ends_unfit(axes) {
        return Err(Refusal::Value);
    }
    if ends_reversed(axes) {
        return Err(Refusal::Outside);
    }
    if some_thin(axes) {
        return Err(Refusal::Thin);
    }
    if some_foreign(axes, order) {
        return Err(Refusal::Outside);
    }
    if some_unfit(axes) {
        return Err(Refusal::Value);
    }
    if points_outside(axes) {
        return Err(Refusal::Outside);
    }
    Ok(())
}

// The same, and that the number is that of the earliest place.
pub fn test_axes(axes: &[Placed], order: u32) -> Result<(), Refusal>
    ensures value { result ≡ answer_by (asked_of (map given axes.now) (questions order)) tt }
    ensures takes { result ≡ Ok tt → All (λ p. Taken (length p.points.now) order p) axes.now }
    ensures earliest { number_in result ≡ number_at_place (place order (map given axes.now)) }
{
    asked(axes, order)
}
