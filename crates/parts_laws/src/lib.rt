// What follows from the definitions of parts along the curve, in proofs/:
//
//   Before      the order of two points is strict, total and transitive
//   Merged      two lists in order, merged, are the two together in order
//   Sorting     the order list has each point once, in order, and no other list does
//   Places      the order list place by place
//   Counts      counts, smallest values, and the largest that passes a test
//   Splits      a split is the smallest index present that reaches, goes over its shares by one index at most, and splits rise
//   FairParts   n times a part's weight is at most T and n times the heaviest weight on one index, and what else holds of parts
//   NotIdle     that bound is sharp, and false of the heaviest single weight
//   Accepted    what holds of a call that is not refused, and what a call leaves
//   Passing     the parts of points, worked out along their order
#![tactic(auto)]
