// What check's answers say of a frame: the laws are in specs/ and proofs/.
#![tactic(auto)]
