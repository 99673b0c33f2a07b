// An end's maps altered by what befell it.
ghost use Rattle.std.specs.Prelude.{◌≡◌, ℕ};
ghost use Rattle.table_links.specs.OrderedLinks.{OrderedLinks};
ghost use Rattle.bit_maps.specs.BitMap.{map_of};
ghost use Rattle.probe_rules.specs.Rules.{entry_of};
ghost use Rattle.probe_rules.specs.Within.{Within, EventWithin, IsHeard};
ghost use Rattle.probe_maps.specs.Maps.{rows, is_own};
ghost use Rattle.probe_maps.specs.GoodMaps.{Sound, GoodMaps};
ghost use Rattle.probe_maps.specs.MapRules.{befalls_maps, alter_maps};
ghost use Rattle.table.specs.Slices.{as_slices, table_of};

use bit_maps::bits::move_bit;
use probe_rules::Outcome;
use table::TableSlices;

// Puts the link into one map of a direction and out of the other, as the outcome says, for every number of links that the maps are of.
fn alter(
    outcome: Outcome,
    standing: &mut [u64],
    refused_out: &mut [u64],
    held: &mut [u64],
    refused_in: &mut [u64],
)
    requires { (links : ℕ) × Sound links (rows standing.old refused_out.old held.old refused_in.old) × Within links outcome }
    ensures { let before = rows standing.old refused_out.old held.old refused_in.old in
        let after = rows standing.new refused_out.new held.new refused_in.new in
        ((links : ℕ) → Sound links before → Within links outcome → after ≡ alter_maps links outcome before) }
{
    match outcome {
        Outcome::Opened(i) => {
            move_bit(standing, refused_out, i);
        }
        Outcome::Enough => {}
        Outcome::Taken(i) => {
            move_bit(held, refused_in, i);
        }
        Outcome::TakenDisplacing { link, displaced } => {
            move_bit(held, refused_in, link);
            move_bit(refused_in, held, displaced);
        }
        Outcome::Refused(i) => {
            move_bit(refused_in, held, i);
        }
        Outcome::RefusalLearnt(i) => {
            move_bit(refused_out, standing, i);
        }
        Outcome::NoChange(_) => {}
        Outcome::AllTried => {}
    }
}

// Lets the event befall the probe: its maps altered, and its entry. An opening uses the own links up: nothing is promised of them after it. A frame heard leaves them.
pub fn apply(
    event: probe_rules::Event,
    own: &mut [u64],
    table: TableSlices<'_>,
    probe: u16,
    standing: &mut [u64],
    refused_out: &mut [u64],
    held: &mut [u64],
    refused_in: &mut [u64],
) -> wake_log::Entry
    requires { let t = table_of (as_slices table) in
        OrderedLinks table.links table.lows.now table.highs.now table.costs.now × (own.old ≡ map_of (is_own t probe) 32)
        × GoodMaps t probe (rows standing.old refused_out.old held.old refused_in.old) × EventWithin table.links event }
    ensures { let t = table_of (as_slices table.entry) in
        let before = rows standing.old refused_out.old held.old refused_in.old in
        let after = rows standing.new refused_out.new held.new refused_in.new in
        let o = befalls_maps t probe event before in
        (result ≡ entry_of t probe o) × (after ≡ alter_maps table.entry.links o before) × (IsHeard event → own.new ≡ own.old) }
{
    let outcome = super::decisions::decide(
        event,
        own,
        table.links as usize,
        table.needs,
        table.costs,
        probe as usize,
        standing,
        refused_out,
        held,
        refused_in,
    );
    alter(outcome, standing, refused_out, held, refused_in);
    probe_rules::outcomes::entry_of(outcome, table.lows, table.highs, probe)
}
