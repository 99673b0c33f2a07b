// 20, 21 and 22 of an end's maps, behind the table's checks; its own links as a map.
#![tactic(auto)]

pub mod own;
pub mod states;
mod words;
