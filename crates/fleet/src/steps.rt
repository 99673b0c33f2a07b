// The steps of a fleet. Its public functions and the script program call these, within the bounds that they ask.
ghost use Rattle.std.specs.Prelude.{◌≡◌, cond, [], ◌*◌, ◌<◌, ◌≤◌, length};
ghost use Rattle.table.specs.Table.{of_slices, Degrees};
ghost use Rattle.table_links.specs.OrderedLinks.{OrderedLinks};
ghost use Rattle.wake_log.specs.declared.What.TheVariants.{Restarted};
ghost use Rattle.probe_rules.specs.Rules.{befalls, entry_of};
ghost use Rattle.probe_rules.specs.Within.{EventWithin};
ghost use Rattle.fleet_theory.specs.Fleet.{own, fleet_fault, alter_fleet, wiped};
ghost use Rattle.table.specs.Slices.{slices_fault, table_of, as_slices};
ghost use Rattle.fleet.specs.Answers.{Handled};

use table::TableSlices;
use table::counted::CountedTable;

// Lets the event befall the probe, or restarts it: the fleet's record altered, and the entry.
fn apply(
    restart: bool,
    event: probe_rules::Event,
    table: TableSlices<'_>,
    degrees: &[u16],
    probe: u16,
    rec: &mut [u8],
) -> wake_log::Entry
    requires { OrderedLinks table.links table.lows.now table.highs.now table.costs.now × (length rec.old ≡ 8 * table.links) × EventWithin table.links event
        × (probe < length degrees.now) × Degrees (of_slices 0 0 table.links [] table.lows.now table.highs.now []) degrees.now }
    ensures { let t = table_of (as_slices table.entry) in
        let o = befalls t probe event (own t probe rec.old) in
        (result ≡ cond restart (record { probe = probe; what = Restarted }) (entry_of t probe o))
        × (rec.new ≡ cond restart (wiped t probe rec.old) (alter_fleet t probe o rec.old)) }
{
    let links = table.links as usize;
    if restart {
        fleet_rules::own_bytes::wipe(rec, links, table.lows, table.highs, probe as usize);
        return wake_log::Entry {
            probe,
            what: wake_log::What::Restarted,
        };
    }
    let outcome = fleet_rules::decisions::decide(event, rec, table, degrees, probe as usize);
    fleet_rules::own_bytes::alter_fleet(rec, outcome, table.lows, probe as usize);
    probe_rules::outcomes::entry_of(outcome, table.lows, table.highs, probe)
}

// A line to a fleet whose table and record are already checked, and each probe's links counted. `used` of the log's `room` entries are used.
pub fn handle_line(
    counted: CountedTable<'_>,
    rec: &mut [u8],
    line: &[u8],
    used: usize,
    room: usize,
) -> wake_log::Answer
    requires { fleet_fault (table_of (as_slices counted.table)) rec.old ≡ 0 }
    ensures { Handled (as_slices counted.entry.table) used room line.now result rec.old rec.new }
{
    let probes = counted.table.probes as usize;
    let links = counted.table.links as usize;
    let frame = match probe_frame::frame_line::read_frame(line) {
        Ok(frame) => frame,
        Err(refusal) => return wake_log::Answer::Refused(refusal.number()),
    };
    let ends = super::line_checks::check_line(
        counted.table.number,
        probes,
        links,
        counted.table.lows,
        counted.table.highs,
        frame,
    );
    if ends.fault != 0 {
        return wake_log::Answer::Refused(ends.fault);
    }
    let event = super::line_checks::line_event(frame.kind, ends.link);
    let unsent = super::line_checks::unsent_fault(
        event,
        counted.table.lows,
        counted.table.highs,
        rec,
        frame.from,
    );
    if unsent != 0 {
        return wake_log::Answer::Refused(unsent);
    }
    if room <= used {
        return wake_log::Answer::Refused(26);
    }
    let e = apply(
        frame.kind == 3,
        event,
        counted.table,
        counted.degrees,
        frame.to as u16,
        rec,
    );
    wake_log::Answer::Logged(e)
}
