// What the calls over a lent log share: the free entries, and an answer's entry stored.
ghost use Rattle.std.specs.Prelude.{◌≡◌, ◌-◌};
ghost use Rattle.wake_log.specs.Log.{log_with};

// How many of the log's entries are free.
pub fn free(used: usize, room: usize) -> usize
    ensures { result ≡ room - used }
{
    if room < used {
        return 0;
    }
    room - used
}

// Stores the entry of an accepted event behind the used ones; a refusal leaves the log as it is.
pub fn append_answer(log: &mut [super::Entry], used: usize, answer: super::Answer)
    ensures { log.new ≡ log_with used answer log.old }
{
    if let super::Answer::Logged(e) = answer {
        super::append(log, used, e);
    }
}
