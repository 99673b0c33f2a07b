// The checks of an end's calls, and what a frame says.
#![tactic(auto)]

pub mod faults;
