// The frames of a bag, found by their line feeds.
ghost use Rattle.std.specs.Prelude.{◌≡◌, cond, map, ◌≤◌, ltb, length, IfOk};
ghost use Rattle.std.proofs.lemmas.List.Edits.{sets};
ghost use Rattle.refusals.specs.Refusals.{fault_of};
ghost use Rattle.table.specs.Slices.{as_slices, table_of};
ghost use Rattle.table_links.specs.RisingSlices.{RisingSlices};
ghost use Rattle.probe_bags.specs.Bag.{frames_of, events_of, frames_fault};
ghost use Rattle.probe_hearing.specs.PackedEvents.{packed_event};

use refusals::Refusal;
use table::TableSlices;

// How many frames a bag has; 65 where it has more.
pub fn count_frames(bag: &[u8]) -> usize
    ensures { let n = length (frames_of bag.now) in result ≡ cond (ltb 64 n) 65 n }
{
    let mut count = 0;
    let mut at = 0;
    // Stays a while: the step is the line's length.
    while at < bag.len() {
        if count == 64 {
            return 65;
        }
        let found = lines::find_line(bag, at);
        at = found.next;
        count += 1;
    }
    count
}

// Reads each frame: the first bad one's fault, or in `said` what each says, as a number.
pub fn read_frames(
    table: TableSlices<'_>,
    probe: usize,
    bag: &[u8],
    said: &mut [u16],
) -> Result<(), Refusal>
    requires { RisingSlices table.links table.lows.now table.highs.now × (table.links ≤ 2048) × (length (frames_of bag.now) ≤ 64) × (length said.old ≡ 64) }
    ensures { let t = table_of (as_slices table.entry) in
        let ls = frames_of bag.now in
        (fault_of result ≡ frames_fault t probe ls) × IfOk result (λ u. said.new ≡ sets said.old 0 (map packed_event (events_of t ls))) }
{
    let mut n = 0;
    let mut at = 0;
    // Stays a while: the step is the line's length.
    while at < bag.len() {
        let found = lines::find_line(bag, at);
        let next = found.next;
        let event = probe_checks::faults::check_frame(
            table.number,
            table.links as usize,
            table.lows,
            table.highs,
            probe,
            &bag[at..next],
        )?;
        said[n] = super::events::packed_event(event);
        n += 1;
        at = next;
    }
    Ok(())
}
