// The rules of the ends in a fleet's record: where an end's own bytes stand, and what befalls it, found in one pass over the links that stops at its own.
#![tactic(auto)]

pub mod decisions;
pub mod own_bytes;

// The sides of an end's record: its outbound bytes, of what it offered, and its inbound ones, of what it was offered.
#[derive(Clone, Copy)]
pub enum Side {
    Out,
    In,
}

// What one pass tells of an end: its bytes 1 on one side, and the best link of a kind, or the number of links.
#[derive(Clone, Copy)]
pub struct Survey {
    pub count: usize,
    pub best: usize,
}
