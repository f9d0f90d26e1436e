// Demands 2 and 3 of tables: statements in specs/, their proofs in proofs/. There is no code here.

#![tactic(auto)]
