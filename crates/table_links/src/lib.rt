// The links of a table in slices: their ends, their order, each probe's spare, and the link between two probes.
#![tactic(auto)]

pub mod ends;
pub mod order;
pub mod pairs;
pub mod spares;
