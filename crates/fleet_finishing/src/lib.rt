// Whether a fleet is finished, by its record.
#![tactic(auto)]

pub mod finishing;
