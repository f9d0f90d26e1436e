// What the two readings that count in a lent tally leave: a law in proofs/. There is no code here.

#![tactic(auto)]
