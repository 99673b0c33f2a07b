// Calls of a fleet, one after the other, and demand 3 about them: statements in specs/ and their laws in proofs/. It has no code.
#![tactic(auto)]
