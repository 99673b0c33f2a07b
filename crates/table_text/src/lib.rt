// The checks of a table's text.
#![tactic(auto)]

pub mod line_checks;
pub mod text_checks;

// A text's header: the table's number and counts.
#[derive(Clone, Copy)]
pub struct Header {
    pub number: usize,
    pub probes: usize,
    pub links: usize,
}

// A link's ends.
#[derive(Clone, Copy)]
pub struct Link {
    pub low: usize,
    pub high: usize,
}
