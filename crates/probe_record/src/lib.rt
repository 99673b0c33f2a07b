// The record of an end: its bytes counted and checked.
#![tactic(auto)]

pub mod checks;
pub mod counts;
