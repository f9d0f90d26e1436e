// Saved files: their records, what loads and what is saved, as definitions in specs/ and laws in proofs/. There is no code here.

#![tactic(auto)]
