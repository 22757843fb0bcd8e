// The index of every point: on each axis the points' cells, and the knot's index on the curve. The axes are those from the lowest to the highest of
// the points (`index_2d`, `index_3d`), or given: by their records (`index_2d_on`, `index_3d_on`) or by their low and high (`index_2d_in`,
// `index_3d_in`). On given axes an index stays where points are added.
//
// A call tests, each over all points and axes before the next: the order, that there are points, the lengths of the slices; then the values and the
// axes, or, of given axes, their ends, their records, and the values. Only then does it write, one index for each point; after a refusal the index
// slice is as it was.
//
//   points                   the values and the axis of points
//   knots_tests              the tests that need no axis
//   indices                  the indices of points on axes that take them
//   knots_over               the calls on the axes over the points
//   given_tests, given_axis  what is asked of a given axis and its points; the record of low and high
//   knots_on                 the calls on given axes
//
// A caller may rely on these, of axis_laws: accepts (the axis of points accepts each of them) and knot_below (a point's cell lies below
// 2^order), so that no point is refused once the tests are passed; on `index_all_2d_is_on` of given_laws: `index_2d` of fit points is
// `index_2d_on` on the axes over them; and on `index_at_most_one_off_2d` and its like of rounding_laws: rounding moves no point by more than one cell.
// Each promise has one answer (`index_2d_only` and so on, proofs/Once.antt of knots_over and knots_on).
#![tactic(auto)]

pub use knots_on::{index_2d_in, index_2d_on, index_3d_in, index_3d_on};
pub use knots_over::{index_2d, index_2d_default, index_3d, index_3d_default};
