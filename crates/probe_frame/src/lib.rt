// Frames of the ends: a frame's line read where it stands, and written.
#![tactic(auto)]

pub mod frame_line;

// A frame's numbers, as its line gives them.
#[derive(Clone, Copy)]
pub struct FrameLine {
    pub kind: usize,
    pub number: usize,
    pub from: usize,
    pub to: usize,
}
