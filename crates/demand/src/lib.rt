// Demand 3 stands in specs/ and is proved in proofs/: there is no code.
#![tactic(auto)]
