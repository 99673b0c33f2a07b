// The entries of the wake log, the answer to an event, and the log in a lent slice. The count of used entries goes beside it.
#![tactic(auto)]

ghost use Rattle.std.specs.Prelude.{◌≡◌, set};
ghost use Rattle.range.specs.Reply.{values};
ghost use Rattle.wake_log.specs.Log.{slot_reply, slot_values};

pub mod codes;
pub mod storing;

// What befell a probe, with the link where there is one, by its place in the table.
#[derive(Clone, Copy)]
pub enum What {
    Opened(u16),
    Enough,
    Taken(u16),
    TakenDisplacing { link: u16, displaced: u16 },
    Refused(u16),
    RefusalLearnt(u16),
    NoChange(u16),
    AllTried,
    Restarted,
}

#[derive(Clone, Copy)]
pub struct Entry {
    pub probe: u16,
    pub what: What,
}

// The entry of an accepted event, or the number of the refusal.
#[derive(Clone, Copy)]
pub enum Answer {
    Logged(Entry),
    Refused(u8),
}

// What a place of the log holds.
#[derive(Clone, Copy)]
pub enum Slot {
    Used(Entry),
    Unused,
}

// Stores an entry at its place; past the log's end nothing is stored.
pub fn append(log: &mut [Entry], used: usize, e: Entry)
    ensures { log.new ≡ set log.old used e }
{
    if used < log.len() {
        log[used] = e;
    }
}

// What stands at a place of the log: past the used entries, or past the log's end, none.
pub fn entry_at(log: &[Entry], used: usize, i: usize) -> Slot
    ensures { slot_reply result ≡ values (slot_values log.now used i) }
{
    if used <= i {
        return Slot::Unused;
    }
    if log.len() <= i {
        return Slot::Unused;
    }
    Slot::Used(log[i])
}
