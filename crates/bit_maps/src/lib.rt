// Maps, rows of 64-bit words: one bit read, or put into one map and out of another; the ones counted, and walked through.
#![tactic(auto)]

pub mod bits;
pub mod counts;
pub mod walks;
