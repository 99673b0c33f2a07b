// What befalls an end of a fleet, found in one pass over the links that stops at its own. The fleet calls `decide`, within the bounds that it asks.
ghost use Rattle.std.specs.Prelude.{◌≡◌, cond, ◌&&◌, ◌||◌, [], ℕ, ◌+◌, ◌*◌, ◌<◌, ◌≤◌, leb, eqb, length};
ghost use Rattle.table.specs.Table.{item, of_slices, dearer_by_place, Degrees};
ghost use Rattle.table_links.specs.OrderedLinks.{OrderedLinks};
ghost use Rattle.probe_rules.specs.Rules.{opening, offer, befalls};
ghost use Rattle.probe_rules.specs.Within.{EventWithin};
ghost use Rattle.fleet_theory.specs.Fleet.{own};
ghost use Rattle.fleet_rules.specs.Sides.{wanted, cheapest, side_byte, side_better};
ghost use Rattle.fleet_rules.specs.Survey.{Surveyed};
ghost use Rattle.table.specs.Slices.{as_slices, table_of};

use super::own_bytes::own_byte;
use super::{Side, Survey};
use probe_rules::{Event, Outcome};
use table::TableSlices;

fn one_if(byte: u8) -> usize
    ensures { result ≡ cond (eqb byte 1) 1 0 }
{
    if byte == 1 {
        return 1;
    }
    0
}

// The best link so far, with the link k: the dearest of the untried ones, the cheapest of those held.
fn best_with(side: Side, byte: u8, costs: &[u16], links: usize, k: usize, best: usize) -> usize
    requires { (links ≤ length costs.now) × (k < links) }
    ensures { let cost = item costs.now in
        result ≡ cond (eqb byte (wanted side) && (leb links best || cond (cheapest side) (dearer_by_place cost best k) (dearer_by_place cost k best))) k best }
{
    let (wanted, cheapest) = match side {
        Side::Out => (0, false),
        Side::In => (1, true),
    };
    if byte == wanted && table_links::order::goes_before(cheapest, costs, links, k, best) {
        return k;
    }
    best
}

// The end's offers standing and its dearest untried link, or its offers held and the cheapest of them.
fn survey(
    side: Side,
    rec: &[u8],
    links: usize,
    lows: &[u16],
    highs: &[u16],
    costs: &[u16],
    probe: usize,
) -> Survey
    requires { OrderedLinks links lows.now highs.now costs.now × (length rec.now ≡ 8 * links) }
    ensures { let t = of_slices 0 0 links [] lows.now highs.now costs.now in
        Surveyed t probe (side_byte side (own t probe rec.now)) (side_better side t) (wanted side) links result }
{
    let mut s = Survey {
        count: 0,
        best: links,
    };
    let mut i = table_links::ends::next_own(links, lows, highs, probe, 0);
    // Stays a while: the step goes to the probe's next own link.
    while i < links {
        let byte = own_byte(side, rec, lows, highs, probe, i);
        s = Survey {
            count: s.count + one_if(byte),
            best: best_with(side, byte, costs, links, i, s.best),
        };
        i = table_links::ends::next_own(links, lows, highs, probe, i + 1);
    }
    s
}

fn decide_opening(rec: &[u8], table: TableSlices<'_>, degrees: &[u16], probe: usize) -> Outcome
    requires { OrderedLinks table.links table.lows.now table.highs.now table.costs.now × (length rec.now ≡ 8 * table.links)
        × (probe < length degrees.now) × Degrees (of_slices 0 0 table.links [] table.lows.now table.highs.now []) degrees.now }
    ensures { let t = table_of (as_slices table.entry) in
        result ≡ opening t probe (own t probe rec.now) }
{
    let links = table.links as usize;
    let s = survey(
        Side::Out,
        rec,
        links,
        table.lows,
        table.highs,
        table.costs,
        probe,
    );
    if table_links::spares::spare_at(degrees, table.needs, probe) <= s.count {
        return Outcome::Enough;
    }
    if links <= s.best {
        return Outcome::AllTried;
    }
    Outcome::Opened(s.best)
}

fn decide_offer(
    rec: &[u8],
    table: TableSlices<'_>,
    degrees: &[u16],
    probe: usize,
    i: usize,
) -> Outcome
    requires { OrderedLinks table.links table.lows.now table.highs.now table.costs.now × (length rec.now ≡ 8 * table.links) × (i < table.links)
        × (probe < length degrees.now) × Degrees (of_slices 0 0 table.links [] table.lows.now table.highs.now []) degrees.now }
    ensures { let t = table_of (as_slices table.entry) in
        result ≡ offer t probe (own t probe rec.now) i }
{
    let links = table.links as usize;
    let s = survey(
        Side::In,
        rec,
        links,
        table.lows,
        table.highs,
        table.costs,
        probe,
    );
    if s.count < table_links::spares::spare_at(degrees, table.needs, probe) {
        return Outcome::Taken(i);
    }
    let displaced = s.best;
    if links <= displaced {
        return Outcome::Refused(i);
    }
    if table_links::order::dearer(table.costs, i, displaced) {
        return Outcome::TakenDisplacing { link: i, displaced };
    }
    Outcome::Refused(i)
}

// What befalls the probe.
pub fn decide(
    event: Event,
    rec: &[u8],
    table: TableSlices<'_>,
    degrees: &[u16],
    probe: usize,
) -> Outcome
    requires { OrderedLinks table.links table.lows.now table.highs.now table.costs.now × (length rec.now ≡ 8 * table.links) × EventWithin table.links event
        × (probe < length degrees.now) × Degrees (of_slices 0 0 table.links [] table.lows.now table.highs.now []) degrees.now }
    ensures { let t = table_of (as_slices table.entry) in
        result ≡ befalls t probe event (own t probe rec.now) }
{
    match event {
        Event::Opening => decide_opening(rec, table, degrees, probe),
        Event::Offer(i) => {
            if own_byte(Side::In, rec, table.lows, table.highs, probe, i) != 0 {
                return Outcome::NoChange(i);
            }
            decide_offer(rec, table, degrees, probe, i)
        }
        Event::Refusal(i) => {
            if own_byte(Side::Out, rec, table.lows, table.highs, probe, i) == 2 {
                return Outcome::NoChange(i);
            }
            Outcome::RefusalLearnt(i)
        }
    }
}
