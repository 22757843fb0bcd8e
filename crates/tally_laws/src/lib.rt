// What follows for the sums of a grid when a cell gets an amount, in proofs/, over any number of axes up to three:
//
//   Coordinates  a cell's coordinates, axis by axis
//   Raised       the weight of all cells, of each line and of each part after an amount at a cell
//   Lines        the lines' sums in their array after it
//   Kept         sums that were those of the weights are those of the weights with the amount
//   Start        sums from nothing, cell by cell
#![tactic(auto)]
