// One trace and one tally through readings, and what the tally says then: statements in specs/, their proofs in proofs/. There is no code here.

#![tactic(auto)]
