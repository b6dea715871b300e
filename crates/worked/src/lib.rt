// The worked examples of the arithmetic stand in specs/ as one table, and hold by proofs/. There is no code.
#![tactic(auto)]
