// Laws on loops, lists and tables of examples, which stand in specs/. There is no code.
#![tactic(auto)]
