// The frames of an accepted bag, heard one after the other.
ghost use Rattle.std.specs.Prelude.{◌≡◌, [], map, ℕ, ◌≤◌, ◌<◌, length, get_or, take};
ghost use Rattle.table_links.specs.OrderedLinks.{OrderedLinks};
ghost use Rattle.bit_maps.specs.BitMap.{map_of};
ghost use Rattle.probe_rules.specs.Within.{OwnEvent};
ghost use Rattle.probe_maps.specs.Maps.{rows, is_own};
ghost use Rattle.probe_maps.specs.GoodMaps.{GoodMaps};
ghost use Rattle.bag_entries.specs.Entries.{entries_of};
ghost use Rattle.probe_bags.specs.Bag.{maps_after, entries_after};
ghost use Rattle.probe_hearing.specs.PackedEvents.{unpacked_event};
ghost use Rattle.table.specs.Slices.{as_slices, table_of};

use bag_entries::Entries;
use table::TableSlices;
use wake_log::{Entry, What};

pub fn no_entries() -> Entries
    ensures { result ≡ entries_of [] }
{
    Entries {
        count: 0,
        entries: [Entry {
            probe: 0,
            what: What::Enough,
        }; 64],
    }
}

// Hears what the first `count` numbers of `said` say, in their order.
pub fn hear_frames(
    said: &[u16],
    count: usize,
    own: &mut [u64],
    table: TableSlices<'_>,
    probe: u16,
    standing: &mut [u64],
    refused_out: &mut [u64],
    held: &mut [u64],
    refused_in: &mut [u64],
) -> Entries
    requires { let t = table_of (as_slices table) in
        OrderedLinks table.links table.lows.now table.highs.now table.costs.now × (own.old ≡ map_of (is_own t probe) 32)
        × GoodMaps t probe (rows standing.old refused_out.old held.old refused_in.old) × (count ≤ 64) × (count ≤ length said.now)
        × ((k : ℕ) → k < count → OwnEvent t probe (unpacked_event (get_or said.now k 0))) }
    ensures { let t = table_of (as_slices table.entry) in
        let before = rows standing.old refused_out.old held.old refused_in.old in
        let after = rows standing.new refused_out.new held.new refused_in.new in
        let vs = map unpacked_event (take count said.now) in
        (result ≡ entries_of (entries_after t probe vs before)) × (after ≡ maps_after t probe vs before) }
{
    let mut entries = [Entry {
        probe: 0,
        what: What::Enough,
    }; 64];
    for n in 0..count {
        let event = super::events::unpacked_event(said[n]);
        entries[n] = probe_decisions::steps::apply(
            event,
            own,
            table,
            probe,
            standing,
            refused_out,
            held,
            refused_in,
        );
    }
    Entries { count, entries }
}
