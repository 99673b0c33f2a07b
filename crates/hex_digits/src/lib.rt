// Hexadecimal digits: the values of bytes by a constant table, and fields of digits read where they stand and written in place.
#![tactic(auto)]

pub mod fields;
mod values;
