// The entries of a bag's frames, in the bag's order, and how they come into a lent log.
#![tactic(auto)]

pub mod logs;

// Up to 64 entries: those of the first `count` places.
#[derive(Clone, Copy)]
pub struct Entries {
    pub count: usize,
    pub entries: [wake_log::Entry; 64],
}
