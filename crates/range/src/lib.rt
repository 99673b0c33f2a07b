// Sums, counts, first faults and lists over 0 ≤ i < n, and the answers of document 01: definitions in specs/ and their laws in proofs/. It has no code.
#![tactic(auto)]
