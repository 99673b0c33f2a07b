// The calls of a script, one after the other, each in its own slices of the table: the statement in specs/ and its laws in proofs/. It has no code.
#![tactic(auto)]
