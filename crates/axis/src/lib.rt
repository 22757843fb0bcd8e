// From a value to a cell: the axis of low, high and order, and where a value lies on it.
//
// An axis is flat, where its width high - low is 0, or sloped with a factor: 2^order / width, stepped down until its product with the
// width rounds to less than 2^order. The cell of a value is factor * (value - low), its fraction dropped; on a flat axis it is 0.
//
//   axis_make   making an axis, or its refusal
//   axis_cell   the cell of a value on an axis record, or its refusal
//   extent      low and high of points
//
// A caller may rely on these, of axis_laws:
//   cell_below                       the cell of every accepted value lies below 2^order
//   at_most_one_step                 the factor is 2^order / width or the next smaller f64
//   made_anew, not_made_up           a record is taken for made up unless making it anew gives it back
//   accepts, refused_order_or_thin   the axis of fit points accepts each of them, and only its order or its width can refuse it
//   first_zero_stays                 of 0.0 and -0.0 the first met is an end of the points, bit for bit
// and on cell_at_most_one_off of rounding_laws: the cell differs by at most 1 from the whole part of (value - low) * 2^order / (high - low), worked
// out exactly.
// Each promise has one answer (`make_axis_only` and so on, proofs/Once.antt of these crates).
#![tactic(auto)]

pub use axis_cell::cell;
pub use axis_make::{make_axis, make_axis_default};
pub use extent::extent_of;
