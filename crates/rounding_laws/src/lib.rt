// How far rounding may move a cell, in proofs/: a file bears the name of what it says.
//
//   ScaledValue        a finite f64 as a whole number agrees with the kit's value of it; so do the order and differences
//   CellAtMostOneOff   the cell of every accepted value differs by at most 1 from the whole part of the exact quotient, and is that whole part
//                      where the quotient is farther from a border than 2^order / 2^49 of a cell
//   KnotAtMostOneOff   so does the cell of every point on the axis over all of them
//   IndexAtMostOneOff  where points are indexed, on given axes or on those over them, that is the cell which a point's index decodes to
//   DifferByOne        the statement by products is the one by whole parts
//
// That a cell 1 above and one 1 below the exact whole part occur is computed in requests/proofs/RoundingCases.antt.
//
// These stand on RoundNear (how far one rounding moves a fraction), ErrorsAddUp (all roundings of a cell together) and CellClose (the
// product before its fraction is dropped, and so the cell).
#![tactic(auto)]
