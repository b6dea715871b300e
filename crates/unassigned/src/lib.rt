// Which bytes of a row's record a phase assigns stands in specs/; that all others stay is proved in proofs/. There is no code.
#![tactic(auto)]
