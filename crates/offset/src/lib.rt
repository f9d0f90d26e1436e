// One number added to all readings, and what becomes of every answer: statements in specs/, their proofs in proofs/. There is no code here.

#![tactic(auto)]
