// Nothing to run: the theorem is in specs/.
#![tactic(auto)]
