// The library of the wake log for C and Rust: reading a log of packed entries.
#![tactic(auto)]

ghost use Rattle.std.specs.Prelude.{◌≡◌};
ghost use Rattle.packed_answers.specs.Packed.{packed_at};

// The packed entry at a place; past the used ones, or past the log's end, 0.
#[unsafe(no_mangle)]
pub extern "C" fn planner_log_entry(log: &[u64], used: usize, i: usize) -> u64
    ensures { result ≡ packed_at log.now used i }
{
    packed_answers::logs::entry(log, used, i)
}
