// Entries stored behind the used ones of a lent log. The calls that hear a bag have seen that there is room.
ghost use Rattle.std.specs.Prelude.{◌≡◌, map, ◌-◌, ◌≤◌, ◌<◌, length, get_or, take};
ghost use Rattle.std.proofs.lemmas.List.Edits.{sets};
ghost use Rattle.wake_log.specs.declared.Entry.{Entry};
ghost use Rattle.wake_log.specs.Log.{no_entry};
ghost use Rattle.packed_answers.specs.Packed.{packed_entry};

use super::Entries;

// What a log holds of an entry: the entry itself, or its packed number.
pub trait Stored: Copy {
    ghost stored: { Entry → Self };

    fn of(e: wake_log::Entry) -> Self
        ensures { result ≡ stored e };
}

impl Stored for wake_log::Entry {
    ghost stored = { λ e. e };

    fn of(e: wake_log::Entry) -> wake_log::Entry {
        e
    }
}

impl Stored for u64 {
    ghost stored = { packed_entry };

    fn of(e: wake_log::Entry) -> u64 {
        packed_answers::packed_entry(e)
    }
}

// The entry at a place.
fn entry_in(all: Entries, k: usize) -> wake_log::Entry
    requires { k < 64 }
    ensures { result ≡ get_or all.entries k no_entry }
{
    all.entries[k]
}

pub fn store_all<T: Stored>(log: &mut [T], used: usize, all: Entries)
    requires { (all.count ≤ 64) × (all.count ≤ length log.old - used) }
    ensures { log.new ≡ sets log.old used (map T.stored (take all.count all.entries)) }
{
    for k in 0..all.count {
        log[used + k] = T::of(entry_in(all, k));
    }
}
