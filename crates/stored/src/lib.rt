// Pages made while another number of steps was the default: statements in specs/, their proofs in proofs/. There is no code here.

#![tactic(auto)]
