// Making an axis of low, high and order, or refusing it.
//
// An axis is flat, where its width high - low is 0, or sloped with a factor: 2^order / width, stepped down until its product with the
// width rounds to less than 2^order.
//
// A caller may rely on these, of axis_laws:
//   at_most_one_step        the factor is 2^order / width or the next smaller f64
//   refused_order_or_thin   the axis of fit points is refused for its order or its width alone
#![tactic(auto)]

ghost use Rattle.std.specs.Prelude.{◌≡◌, false, ◌≤◌};
ghost use Rattle.std.specs.Float.{binary64};
ghost use Rattle.std.specs.Float.Ieee.{to_bits, eq};
ghost use Rattle.rules.specs.Refusals.{first_of, nought, width, value_unfit, axis_thin, axis_tests};
ghost use Rattle.rules.specs.Curve.{default_order};
ghost use Rattle.rules.specs.Axis.{next_down, factor_of, make_axis};

pub use apart::refusal_of;
use rules::{Axis, DEFAULT_ORDER, LEAST_WIDTH, Refusal, TOP_ORDER_2D, TOP_VALUE};

// Whether a value is NaN, infinite, or too large in size.
pub fn unfit(value: f64) -> bool
    ensures { result ≡ value_unfit value }
{
    !(-TOP_VALUE <= value && value <= TOP_VALUE)
}

// Whether an axis from low to high is thin.
pub fn thin(low: f64, high: f64) -> bool
    ensures { result ≡ axis_thin low high }
{
    let width = high - low;
    0.0 < width && width < LEAST_WIDTH
}

// The next smaller f64 of one above zero.
fn next_down(f: f64) -> f64
    requires bound { 1 ≤ to_bits binary64 f }
    requires f_bound { to_bits binary64 f ≤ 0x7ff0_0000_0000_0000 }
    ensures { result ≡ next_down f }
{
    f64::from_bits(f64::to_bits(f) - 1)
}

// The factor of a sloped axis: 2^order / width, stepped down while its product with the width reaches 2^order. It is a `while`, since it counts
// nothing.
fn factor_of(low: f64, high: f64, order: u32) -> f64
    requires order_value { first_of (axis_tests low high order) ≡ 0 }
    requires nought_value { eq (width low high) nought ≡ false }
    ensures { result ≡ factor_of low high order }
{
    let width = high - low;
    let n = (1u64 << order) as f64;
    let mut f = n / width;
    while n <= width * f {
        f = next_down(f);
    }
    f
}

// The axis of low, high and order, or its refusal.
#[tactic(auto, using(std::proofs::Common::tests), unfolding(rules::specs::Sums::any, rules::specs::Refusals::axis_tests, rules::specs::Axis::axis_of, rules::specs::Axis::make_axis))]
pub fn make_axis(low: f64, high: f64, order: u32) -> Result<Axis, Refusal>
    ensures { result ≡ make_axis low high order }
{
    if order > TOP_ORDER_2D {
        return Err(Refusal::Order);
    }
    if unfit(low) || unfit(high) {
        return Err(Refusal::Value);
    }
    if high < low {
        return Err(Refusal::Outside);
    }
    if thin(low, high) {
        return Err(Refusal::Thin);
    }
    if high - low == 0.0 {
        return Ok(Axis::Flat { low, high, order });
    }
    let factor = factor_of(low, high, order);
    Ok(Axis::Sloped {
        low,
        high,
        order,
        factor,
    })
}

// The axis of low and high at the default order, or its refusal.
pub fn make_axis_default(low: f64, high: f64) -> Result<Axis, Refusal>
    ensures { result ≡ make_axis low high default_order }
{
    make_axis(low, high, DEFAULT_ORDER)
}
