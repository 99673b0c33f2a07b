// Bags of frames, which an end hears at one wake: what is promised of them, and the laws of their order.
#![tactic(auto)]

// How many frames were heard, or the number of the refusal.
#[derive(Clone, Copy)]
pub enum Hearing {
    Heard(usize),
    Refused(u8),
}
