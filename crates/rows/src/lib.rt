// Nothing to run: a row's step in place is the sweep's. The rules are in specs/.
#![tactic(auto)]
