// The checks of a bag behind those of the end's state, in their order.
ghost use Rattle.std.specs.Prelude.{◌≡◌, map, ◌≤◌, length, IfOk};
ghost use Rattle.std.proofs.lemmas.List.Edits.{sets};
ghost use Rattle.refusals.specs.Refusals.{fault_of};
ghost use Rattle.table.specs.Slices.{as_slices, table_of};
ghost use Rattle.table_links.specs.RisingSlices.{RisingSlices};
ghost use Rattle.probe_bags.specs.Bag.{frames_of, events_of, bag_fault};
ghost use Rattle.probe_hearing.specs.PackedEvents.{packed_event};

use super::frames;
use refusals::Refusal;
use table::TableSlices;

// How many frames the bag has. Where there is no fault, `said` has what each frame says.
pub fn check_bag(
    table: TableSlices<'_>,
    probe: usize,
    bag: &[u8],
    free: usize,
    said: &mut [u16],
) -> Result<usize, Refusal>
    requires { RisingSlices table.links table.lows.now table.highs.now × (table.links ≤ 2048) × (length said.old ≡ 64) }
    ensures { let t = table_of (as_slices table.entry) in
        let ls = frames_of bag.now in
        (fault_of result ≡ bag_fault 0 t probe ls free)
        × IfOk result (λ n. (n ≡ length ls) × (said.new ≡ sets said.old 0 (map packed_event (events_of t ls)))) }
{
    let count = frames::count_frames(bag);
    if 64 < count {
        return Err(Refusal::BagSize);
    }
    frames::read_frames(table, probe, bag, said)?;
    if table.probes as usize <= probe {
        return Err(Refusal::NotThere);
    }
    if free < count {
        return Err(Refusal::LogFull);
    }
    Ok(count)
}
