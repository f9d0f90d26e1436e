// Lent rooms: their slots, the place of a tick, what a reading asks and what a call leaves, as definitions in specs/ and laws in proofs/. There is no code here.

#![tactic(auto)]
