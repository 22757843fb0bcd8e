// The record of an axis that is given by its low and high, inside: `knots_on` calls it.
//
// Where the axis is refused it is a flat record with the same ends: a call on it is refused for these before it asks of anything else. So a call
// on such records files what it files on the axes from low to high, good or bad (proofs/SameEnds.antt, `files_the_same_2d` and
// `files_the_same_3d`).
#![tactic(auto)]

ghost use Rattle.std.specs.Prelude.{◌≡◌};
ghost use Rattle.given_axis.specs.Records.{record_in};

use axis_make::make_axis;
use rules::{Axis, Extent};

// The record of the axis from low to high.
#[tactic(auto, unfolding(crate::specs::Records::record_by))]
pub fn record_in(extent: Extent, order: u32) -> Axis
    ensures { result ≡ record_in extent order }
{
    let Extent { low, high } = extent;
    make_axis(low, high, order).unwrap_or(Axis::Flat { low, high, order })
}
