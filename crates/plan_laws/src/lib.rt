// Demand 2 as one record about the public calls: the statement in specs/, its proof in proofs/. It has no code.
#![tactic(auto)]
