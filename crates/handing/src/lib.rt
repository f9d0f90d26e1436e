// What the exported functions that hand on a lent tally reply: laws in proofs/. There is no code here.

#![tactic(auto)]
