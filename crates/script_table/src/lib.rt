// What the script program reads before it answers: the table's bytes, and no more.
#![tactic(auto)]

pub mod input;
