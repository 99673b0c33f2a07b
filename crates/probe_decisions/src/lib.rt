// What befalls an end, decided on its maps, and the maps altered by it.
#![tactic(auto)]

pub mod decisions;
mod search;
pub mod steps;
