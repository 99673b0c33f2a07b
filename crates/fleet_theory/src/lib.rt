// A fleet: its definitions and the words of demand 3 in specs/, the claims about the run over a list of lines, and their proof. It has no code.
#![tactic(auto)]
