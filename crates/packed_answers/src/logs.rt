// The log of a caller in another language: packed entries, the first of them used.
ghost use Rattle.std.specs.Prelude.{◌≡◌};
ghost use Rattle.packed_answers.specs.Packed.{packed_answer, packed_at, packed_after};

use wake_log::Answer;

// Stores an accepted event's entry behind the used ones, and hands back the answer packed.
pub fn store(log: &mut [u64], used: usize, answer: Answer) -> u64
    ensures { (result ≡ packed_answer answer) × (log.new ≡ packed_after log.old used answer) }
{
    match answer {
        Answer::Logged(e) => {
            let packed = super::packed_entry(e);
            if used < log.len() {
                log[used] = packed;
            }
            packed
        }
        Answer::Refused(refusal) => refusal as u64,
    }
}

// What a place holds: past the used entries, or past the log's end, 0.
pub fn entry(log: &[u64], used: usize, i: usize) -> u64
    ensures { result ≡ packed_at log.now used i }
{
    if used <= i {
        return 0;
    }
    if log.len() <= i {
        return 0;
    }
    log[i]
}
