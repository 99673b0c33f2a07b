// The plan of a site and the S-LSE method: definitions in specs/, their laws in proofs/. It has no code.
#![tactic(auto)]
