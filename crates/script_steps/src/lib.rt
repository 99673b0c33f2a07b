// A script under way: a line of it, or the lines that a piece closes, on buffers that hold its record and what is printed.
#![tactic(auto)]

pub mod line_bytes;
pub mod numbers;
pub mod steps;

// How far a script has come: the log's used entries, the bytes of an unfinished line, and the changes.
#[derive(Clone, Copy)]
pub struct Progress {
    pub used: u32,
    pub held: u32,
    pub changed: u32,
}

// Where the next byte is printed, and how far the script has come.
#[derive(Clone, Copy)]
pub struct Place {
    pub at: usize,
    pub progress: Progress,
}

// How far a script has come, and where in the piece the line starts that it does not close.
#[derive(Clone, Copy)]
pub struct Lines {
    pub place: Place,
    pub rest: usize,
}
