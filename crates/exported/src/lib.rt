// The three demands, stated of the exported functions: statements in specs/, their proofs in proofs/. There is no code here.

#![tactic(auto)]
