// The lines of a plan's text, each written where it starts.
#![tactic(auto)]

pub mod kept_lines;
pub mod short_lines;
pub mod starts;
