// Index all points on axes that are given, as definitions (specs/Given.antt): what is asked of an axis and its points, in which order, and
// what a call files. Document 01 has the axes from the lowest to the highest of the points alone; on given ones an index stays where points are
// added.
//
// There is no function here, and no proof: what follows is in given_laws, what meets it in knots_on.
#![tactic(auto)]
