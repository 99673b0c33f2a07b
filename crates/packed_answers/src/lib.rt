// Answers as one number, for callers in other languages.
#![tactic(auto)]

ghost use Rattle.std.specs.Prelude.{◌≡◌};
ghost use Rattle.packed_answers.specs.Packed.{packed_entry, packed_answer};

use wake_log::{Answer, Entry};

pub mod logs;
pub mod printed;

// A refusal is its number; any other answer is 2 to the 48th or more, and an entry 2 to the 63rd or more.
pub const ANSWER_BASE: u64 = 281474976710656;

pub const ENTRY_BASE: u64 = 9223372036854775808;

pub fn packed_entry(e: Entry) -> u64
    ensures { result ≡ packed_entry e }
{
    let what = e.what;
    ENTRY_BASE
        + (e.probe as u64) * 1099511627776
        + (wake_log::codes::code(what) as u64) * 4294967296
        + (wake_log::codes::link_place(what) as u64) * 65536
        + (wake_log::codes::displaced_probe(what) as u64)
}

pub fn packed_answer(r: Answer) -> u64
    ensures { result ≡ packed_answer r }
{
    match r {
        Answer::Logged(e) => packed_entry(e),
        Answer::Refused(refusal) => refusal as u64,
    }
}
