// The cell of a value on an axis record, or its refusal.
//
// The cell is factor * (value - low), its fraction dropped; on a flat axis it is 0. A record that making it anew does not give back is made
// up, and refused.
//
// A caller may rely on these, of axis_laws:
//   cell_below               the cell of every accepted value lies below 2^order
//   made_anew, not_made_up   a record is taken for made up unless making it anew gives it back
//   accepts                  the axis of fit points accepts each of them
#![tactic(auto)]

ghost use Rattle.std.specs.Prelude.{◌≡◌, false, is_nan};
ghost use Rattle.rules.specs.Refusals.{first_of, cell_tests};
ghost use Rattle.rules.specs.Axis.{low_of, high_of, order_of, same_bits, made_up, cell_on, cell_of};

use axis_make::{make_axis, unfit};
use rules::{Axis, Refusal};

// The low end of an axis.
pub fn low_of(axis: Axis) -> f64
    ensures { result ≡ low_of axis }
{
    match axis {
        Axis::Flat { low, .. } => low,
        Axis::Sloped { low, .. } => low,
    }
}

// The high end of an axis.
pub fn high_of(axis: Axis) -> f64
    ensures { result ≡ high_of axis }
{
    match axis {
        Axis::Flat { high, .. } => high,
        Axis::Sloped { high, .. } => high,
    }
}

// The order of an axis.
pub fn order_of(axis: Axis) -> u32
    ensures { result ≡ order_of axis }
{
    match axis {
        Axis::Flat { order, .. } => order,
        Axis::Sloped { order, .. } => order,
    }
}

// Whether two f64 are the same bits, the second being no NaN. Not `==`, which takes 0.0 for -0.0.
#[tactic(auto, unfolding(rules::specs::Axis::same_bits))]
fn same_bits(f: f64, g: f64) -> bool
    requires { is_nan g ≡ false }
    ensures { result ≡ same_bits f g }
{
    !f.is_nan() && f.to_bits() == g.to_bits()
}

// Whether making an axis record anew is refused or gives another.
#[tactic(auto, using(axis_laws::proofs::MadeUp::made_no_nan), unfolding(rules::specs::Axis::is_anew, rules::specs::Axis::made_up))]
pub fn made_up(axis: Axis) -> bool
    ensures { result ≡ made_up axis }
{
    let Ok(anew) = make_axis(low_of(axis), high_of(axis), order_of(axis)) else {
        return true;
    };
    match (anew, axis) {
        (Axis::Flat { .. }, Axis::Flat { .. }) => false,
        (Axis::Sloped { factor: right, .. }, Axis::Sloped { factor, .. }) => {
            !same_bits(factor, right)
        }
        _ => true,
    }
}

// The cell of a value on an axis that accepts it.
pub fn cell_on(axis: Axis, value: f64) -> u64
    requires { first_of (cell_tests (made_up axis) (low_of axis) (high_of axis) value) ≡ 0 }
    ensures { result ≡ cell_on axis value }
{
    match axis {
        Axis::Flat { .. } => 0,
        Axis::Sloped { low, factor, .. } => std::num::truncating_f64_to_u64(factor * (value - low)),
    }
}

// The cell of a value on an axis, or its refusal.
#[tactic(auto, using(std::proofs::Common::tests), unfolding(rules::specs::Refusals::cell_tests, rules::specs::Axis::cell_of))]
pub fn cell(axis: Axis, value: f64) -> Result<u64, Refusal>
    ensures { result ≡ cell_of axis value }
{
    if made_up(axis) {
        return Err(Refusal::Outside);
    }
    if unfit(value) {
        return Err(Refusal::Value);
    }
    if value < low_of(axis) || high_of(axis) < value {
        return Err(Refusal::Outside);
    }
    Ok(cell_on(axis, value))
}
