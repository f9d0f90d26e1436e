// Demand 1, stated of every call, and what makes a state and its room sound, in document 01's words: statements in specs/, their proofs in proofs/. There is no code here.

#![tactic(auto)]
