// The three demands, each as one statement with its proof: proofs/Demands.antt. That the bounds of demand 3 are not idle:
// proofs/NotIdle.antt. What document 02's requests demand, a file a request: proofs/Parts.antt, proofs/Replay.antt,
// proofs/Neighbours.antt, proofs/OneOff.antt.
#![tactic(auto)]
