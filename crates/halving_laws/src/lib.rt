// What follows from the rules of halving, in proofs/, over any number of axes, any first axis and any edition.
#![tactic(auto)]
