// The rules of an end: what an opening, an offer heard and a refusal heard do. Links go by their place in the table.
#![tactic(auto)]

pub mod outcomes;

// What reaches an end.
#[derive(Clone, Copy)]
pub enum Event {
    Opening,
    Offer(usize),
    Refusal(usize),
}

// What befalls it.
#[derive(Clone, Copy)]
pub enum Outcome {
    Opened(usize),
    Enough,
    Taken(usize),
    TakenDisplacing { link: usize, displaced: usize },
    Refused(usize),
    RefusalLearnt(usize),
    NoChange(usize),
    AllTried,
}
