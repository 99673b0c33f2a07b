// An end's own bytes in the fleet's record and their marks: where they stand, their reading and their change.
ghost use Rattle.std.specs.Prelude.{◌≡◌, cond, [], ◌+◌, ◌*◌, ◌/◌, ◌<◌, ◌≤◌, length};
ghost use Rattle.table.specs.Table.{item, of_slices, touches};
ghost use Rattle.probe_rules.specs.Within.{Within};
ghost use Rattle.fleet_theory.specs.Fleet.{alter_fleet, wiped};
ghost use Rattle.fleet_rules.specs.Sides.{own_at};

use super::Side;

// Where the probe's byte of a side stands on a link.
fn own_at(side: Side, lows: &[u16], probe: usize, i: usize) -> usize
    requires { (i < length lows.now) × (i < 65536) }
    ensures { result ≡ own_at side (of_slices 0 0 0 [] lows.now [] []) probe i }
{
    let place = match (side, probe == table::numbers::wide(lows[i])) {
        (Side::Out, true) => 0,
        (Side::In, false) => 1,
        (Side::Out, false) => 2,
        (Side::In, true) => 3,
    };
    8 * i + place
}

// The probe's byte of a side on a link, 0 where the link is not its own.
pub fn own_byte(side: Side, rec: &[u8], lows: &[u16], highs: &[u16], probe: usize, i: usize) -> u8
    requires { (i < length lows.now) × (i < length highs.now) × (i < 65536) × (8 * i + 7 < length rec.now) }
    ensures { let t = of_slices 0 0 0 [] lows.now highs.now [] in
        result ≡ cond (touches t probe i) (item rec.now (own_at side t probe i)) 0 }
{
    if !table_links::ends::touches(lows, highs, probe, i) {
        return 0;
    }
    rec[own_at(side, lows, probe, i)]
}

// The mark of that byte.
pub fn own_mark(side: Side, rec: &[u8], lows: &[u16], highs: &[u16], probe: usize, i: usize) -> u8
    requires { (i < length lows.now) × (i < length highs.now) × (i < 65536) × (8 * i + 7 < length rec.now) }
    ensures { let t = of_slices 0 0 0 [] lows.now highs.now [] in
        result ≡ cond (touches t probe i) (item rec.now (own_at side t probe i + 4)) 0 }
{
    if !table_links::ends::touches(lows, highs, probe, i) {
        return 0;
    }
    rec[own_at(side, lows, probe, i) + 4]
}

// Alters the fleet's record by what befell the probe, with the marks.
pub fn alter_fleet(rec: &mut [u8], outcome: probe_rules::Outcome, lows: &[u16], probe: usize)
    requires { (Within (length rec.old / 8) outcome) × (Within (length lows.now) outcome) × (Within 65536 outcome) }
    ensures { rec.new ≡ alter_fleet (of_slices 0 0 0 [] lows.now [] []) probe outcome rec.old }
{
    match outcome {
        probe_rules::Outcome::Opened(i) => {
            let at = own_at(Side::Out, lows, probe, i);
            rec[at] = 1;
            rec[at + 4] = 1;
        }
        probe_rules::Outcome::Enough => {}
        probe_rules::Outcome::Taken(i) => {
            let at = own_at(Side::In, lows, probe, i);
            rec[at] = 1;
        }
        probe_rules::Outcome::TakenDisplacing { link, displaced } => {
            let at = own_at(Side::In, lows, probe, link);
            let displaced_at = own_at(Side::In, lows, probe, displaced);
            rec[at] = 1;
            rec[displaced_at] = 2;
            rec[displaced_at + 4] = 1;
        }
        probe_rules::Outcome::Refused(i) => {
            let at = own_at(Side::In, lows, probe, i);
            rec[at] = 2;
            rec[at + 4] = 1;
        }
        probe_rules::Outcome::RefusalLearnt(i) => {
            let at = own_at(Side::Out, lows, probe, i);
            rec[at] = 2;
        }
        probe_rules::Outcome::NoChange(_) => {}
        probe_rules::Outcome::AllTried => {}
    }
}

// A restart: the probe's own bytes become 0, the marks stay.
pub fn wipe(rec: &mut [u8], links: usize, lows: &[u16], highs: &[u16], probe: usize)
    requires { (links ≤ length lows.now) × (links ≤ length highs.now) × (links ≤ 65535) × (length rec.old ≡ 8 * links) }
    ensures { rec.new ≡ wiped (of_slices 0 0 links [] lows.now highs.now []) probe rec.old }
{
    let mut i = table_links::ends::next_own(links, lows, highs, probe, 0);
    // Stays a while: the step goes to the probe's next own link.
    while i < links {
        let out = own_at(Side::Out, lows, probe, i);
        let into = own_at(Side::In, lows, probe, i);
        rec[out] = 0;
        rec[into] = 0;
        i = table_links::ends::next_own(links, lows, highs, probe, i + 1);
    }
}
