// What the programs print into a lent slice: the answer, and the line of a refusal.
#![tactic(auto)]

pub mod refusals;

// The answer: the length printed, or the number of the refusal.
#[derive(Clone, Copy)]
pub enum Output {
    Length(usize),
    Refused(u8),
}
