// Low and high of points on an axis: they start with the first point and are replaced only by a strictly smaller or larger value.
//
// A caller may rely on these, of axis_laws:
//   extent_holds                              low and high of fit points hold them all
//   first_lowest_stays, first_highest_stays   the first of the lowest points is the low end, bit for bit, the first of the highest the high one;
//   first_zero_stays                          so of 0.0 and -0.0 the first met stays
#![tactic(auto)]

ghost use Rattle.std.specs.Prelude.{◌≡◌, cond};
ghost use Rattle.std.specs.Float.Ieee.{lt};
ghost use Rattle.rules.specs.Axis.{widen, extent_of};

use rules::Extent;

// The low end of points, once x is among them: replaced only by a strictly smaller value. It is not `f64::min`, which may give either zero.
fn lower(low: f64, x: f64) -> f64
    ensures { result ≡ cond (lt x low) x low }
{
    if x < low { x } else { low }
}

// The high end of points, once x is among them: replaced only by a strictly larger value.
fn higher(high: f64, x: f64) -> f64
    ensures { result ≡ cond (lt high x) x high }
{
    if high < x { x } else { high }
}

// The extent with one more point.
#[tactic(auto, unfolding(rules::specs::Axis::widen))]
fn widen_by(extent: Extent, x: f64) -> Extent
    ensures { result ≡ widen extent x }
{
    Extent {
        low: lower(extent.low, x),
        high: higher(extent.high, x),
    }
}

// Low and high of points, starting with the first; zeros where there are none.
pub fn extent_of(xs: &[f64]) -> Extent
    ensures { result ≡ extent_of xs.now }
{
    let Some((&first, others)) = xs.split_first() else {
        return Extent {
            low: 0.0,
            high: 0.0,
        };
    };
    let mut extent = Extent {
        low: first,
        high: first,
    };
    for x in others {
        extent = widen_by(extent, *x);
    }
    extent
}
