// Laws of one end; no code.
#![tactic(auto)]
