// The lines that the script program prints.
#![tactic(auto)]

pub mod answers;
