// The script program's behaviour: its definition, and that it can be had in pieces. It has no code.
#![tactic(auto)]
