// Demands 2 and 3, stated of any sequence of calls: statements in specs/, their proofs in proofs/. There is no code here.

#![tactic(auto)]
