// The picture of a trace, stated of any sequence of calls: statements in specs/, their proofs in proofs/. There is no code here.

#![tactic(auto)]
