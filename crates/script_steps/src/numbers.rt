// The numbers of a script under way, after an answer.
ghost use Rattle.std.specs.Prelude.{◌≡◌, ◌+◌, ◌%◌, ◌≤◌};
ghost use Rattle.fleet.specs.Answers.{changes_by};
ghost use Rattle.wake_log.specs.Entry.{accepted_by};

// The entries used after an answer.
pub fn add_used(used: u32, answer: wake_log::Answer) -> u32
    requires { used + accepted_by answer ≤ 4294967295 }
    ensures { result ≡ used + accepted_by answer }
{
    match answer {
        wake_log::Answer::Logged(_) => used + 1,
        wake_log::Answer::Refused(_) => used,
    }
}

// The changes after an answer, as far as eight digits print them.
pub fn add_changes(changed: u32, answer: wake_log::Answer) -> u32
    ensures { result ≡ (changed + changes_by answer) % 4294967296 }
{
    match answer {
        wake_log::Answer::Logged(e) => {
            let what = e.what;
            let n = fleet::changes_of(what);
            ((changed as u64 + n as u64) % 4294967296) as u32
        }
        wake_log::Answer::Refused(_) => changed,
    }
}
