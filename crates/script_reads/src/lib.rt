// The text behind the script program's table: each read's lines are handled as they come and their answers written; then what the text's end prints.
#![tactic(auto)]

use script_steps::Progress;

pub mod reads;

// Why the reading stopped: at the input's end, with the progress made, or by a read or write that failed.
#[derive(Clone, Copy)]
pub enum Stop {
    AtEnd(Progress),
    Failed,
}
