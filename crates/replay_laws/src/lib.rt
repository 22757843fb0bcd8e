// What follows from the definitions of a replayed night, in proofs/, over any number of axes up to three:
//
//   Events    when an event is accepted, and what it does to the weights
//   History   the weights after one event more: worked out from the history they are those before with the event's amount
//   Bounds    the heaviest part and the lightest answer for all
//   Sums      running sums answer for the grid
//   InForce   the ids in force meet demand 3 after each event
//   Step      what an event comes to, as the running machine goes through it
//   Accepted  what holds of a call that is not refused, and what a call leaves
//   Pieces    a night replayed in two pieces: weights and answers are those of the whole; NotInPieces: ids need not be
//   Leaving   what it is for a contract to fix part of an outcome
#![tactic(auto)]
