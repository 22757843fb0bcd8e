// What follows from the curve's rules, in proofs/: a file bears the name of what it says.
//
//   Permutes                 the first of two tests of a machine: each row is a permutation, and each next state is a state
//   RoundTrip                for any machine that passes it: decode after encode gives the cell, encode after decode the index, an index is
//                            below 2^(d * order), a coordinate below 2^order
//   NoTwoCellsShareAnIndex   so two cells with one index are the same
//   Demand2, Trips           the round trips of the 2D and the 3D curve: as rules' Demands states them, and on every input
//   NeighboursOnTheCurve     for any machine that passes the second too, CornersMeet of rules: successive indices have cells that are 1 apart on
//                            one axis and 0 on every other; where the 2D and the 3D curve begin and end
//   OneCoordinateByOne       that differences add up to 1 is 02's sentence: by exactly 1 in one coordinate and not at all in the others
//   Refusals, Answers        what an encoder or a decoder answers, by the tests that its input passes, and back; the number and values of each answer
//   Turns, Groups            one turn of a loop over the levels, and of one that takes several levels at once
//   OnTop                    the levels to come in the topmost of 64 places, of which each turn takes some
//   CurveIn                  what holds of the plane's machine and of that of space alike
//   DecodeTurn               one turn of a decoder's loop by a table of the rows' inverses (specs/Undoes)
//   Tabulated                the encoder's table of six levels at once: its entries by their rule (specs/Ruled), which leaves no second table
//   Shifts                   what the code's shifts say of a side and of an index
//   Spread, Interleave       one turn of the deposit, and the deposits of a cell's coordinates side by side
//   SpreadInSteps            runs of bits halved by a shift and a mask, until the bits stand alone
//   OntoCombs                the deposit onto a comb: bits that stand alone, shifted to its first tooth
//
// Parts (bits and levels of a number), All (a test of every number below n) and Or (`bit_or` is associative) serve these.
#![tactic(auto)]
