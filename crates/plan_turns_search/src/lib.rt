// What offers by turn are, in specs/, and their searches along the links of each probe.
#![tactic(auto)]

pub mod chains;
pub mod directions;
pub mod search;
