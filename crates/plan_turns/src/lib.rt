// Offers by turn: the plan by the b-Suitor method.
#![tactic(auto)]

pub mod method;
pub mod offers;
pub mod turns;
