// Whether a fleet's record is usable, and the counts by probe that tell it.
#![tactic(auto)]

pub mod checks;
pub mod counts;
