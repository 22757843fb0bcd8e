// What follows from the definitions of points on given axes, in proofs/:
//
//   OverThePoints   a call on the points' own axes is a call on given ones: `index_all_2d_is_on`, `index_all_3d_is_on`
//   NeverForeign    an axis from low to high is made, and its record is not foreign, once no question about its ends passes
#![tactic(auto)]
