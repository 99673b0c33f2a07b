// The plan by S-LSE (document 01, "Two ways to one plan"): links are added from cheapest up, then removed from dearest down.
#![tactic(auto)]

pub mod links;
pub mod passes;
