// A bag of frames heard by one end: its frames counted, read and heard, each once; the entries told by value.
#![tactic(auto)]

ghost use Rattle.std.specs.Prelude.{◌≡◌, []};
ghost use Rattle.refusals.specs.Refusals.{number_of};
ghost use Rattle.table.specs.Slices.{as_slices};
ghost use Rattle.bag_entries.specs.Entries.{entries_of};
ghost use Rattle.probe_bags.specs.declared.Hearing.TheVariants.{Refused};
ghost use Rattle.probe_maps.specs.Maps.{rows};
ghost use Rattle.probe_hearing.specs.Told.{HearsBagTold};

use bag_entries::Entries;
use probe_bags::Hearing;
use refusals::Refusal;
use table::TableSlices;

mod checks;
mod events;
mod frames;
mod hearing;

// The answer to a bag, with the entries that go to the log: none where it is refused.
#[derive(Clone, Copy)]
pub struct ToldBag {
    pub entries: Entries,
    pub answer: Hearing,
}

// A bag that is refused.
fn refused(refusal: Refusal) -> ToldBag
    ensures { result ≡ record { entries = entries_of []; answer = Refused (number_of refusal) } }
{
    ToldBag {
        entries: hearing::no_entries(),
        answer: Hearing::Refused(refusal.number()),
    }
}

// The probe hears a bag, of any bytes; `used` of the log's `room` entries are used.
pub fn tell_bag(
    table: TableSlices<'_>,
    probe: u16,
    standing: &mut [u64],
    refused_out: &mut [u64],
    held: &mut [u64],
    refused_in: &mut [u64],
    bag: &[u8],
    used: usize,
    room: usize,
) -> ToldBag
    ensures { let before = rows standing.old refused_out.old held.old refused_in.old in
        let after = rows standing.new refused_out.new held.new refused_in.new in
        HearsBagTold (as_slices table.entry) probe bag.now used room result before after }
{
    let mut own = [0u64; 32];
    if let Err(refusal) = probe_state::states::check_state(
        table,
        probe,
        standing,
        refused_out,
        held,
        refused_in,
        &mut own,
    ) {
        return refused(refusal);
    }
    let mut said = [0u16; 64];
    let free = wake_log::storing::free(used, room);
    let count = match checks::check_bag(table, probe as usize, bag, free, &mut said) {
        Ok(count) => count,
        Err(refusal) => return refused(refusal),
    };
    let entries = hearing::hear_frames(
        &said,
        count,
        &mut own,
        table,
        probe,
        standing,
        refused_out,
        held,
        refused_in,
    );
    ToldBag {
        entries,
        answer: Hearing::Heard(count),
    }
}
