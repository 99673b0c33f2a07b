// The round trips of a table and its text: statements in specs/ and their laws in proofs/. It has no code.
#![tactic(auto)]
