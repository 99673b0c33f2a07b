// A line to a fleet: its checks, and what it says.
ghost use Rattle.std.specs.Prelude.{◌≡◌, false, cond, List, [], ℕ, ◌/◌, eqb, length, Ok};
ghost use Rattle.table.specs.Table.{of_slices, between};
ghost use Rattle.probe_frame.specs.Frame.{ReadsFrame};
ghost use Rattle.probe_rules.specs.declared.Event.TheVariants.{Opening, Offer, Refusal};
ghost use Rattle.probe_rules.specs.Within.{EventWithin};
ghost use Rattle.table_links.specs.RisingSlices.{RisingSlices};
ghost use Rattle.fleet_theory.specs.Fleet.{marks, of_one_probe, event_ends_fault, event_line_fault, unsent_fault};

use super::LineEnds;
use fleet_rules::Side;
use fleet_rules::own_bytes::own_mark;

fn refused(fault: u8) -> LineEnds
    ensures { result ≡ record { fault = fault; link = 0 } }
{
    LineEnds { fault, link: 0 }
}

// Whether a line of the kind is of one probe: an opening or a restart.
fn is_of_one_probe(kind: usize) -> bool
    ensures { result ≡ of_one_probe kind }
{
    let opening = kind == 0;
    let restart = kind == 3;
    opening | restart
}

// 24, of a line's kind and ends.
fn find_ends(
    probes: usize,
    links: usize,
    lows: &[u16],
    highs: &[u16],
    kind: usize,
    from: usize,
    to: usize,
) -> LineEnds
    requires { RisingSlices links lows.now highs.now }
    ensures { let t = of_slices 0 probes links [] lows.now highs.now [] in
        (result.fault ≡ event_ends_fault t (record { kind = kind; number = 0; from = from; to = to }))
        × (result.fault ≡ 0 → of_one_probe kind ≡ false → result.link ≡ between t from to) }
{
    if is_of_one_probe(kind) {
        if from != to {
            return refused(24);
        }
        if probes <= to {
            return refused(24);
        }
        return refused(0);
    }
    let link = table_links::pairs::between(links, lows, highs, from, to);
    if links <= link {
        return refused(24);
    }
    LineEnds { fault: 0, link }
}

// 9, 23, 24 of a line, by the frame that was read of it.
pub fn check_line(
    number: u16,
    probes: usize,
    links: usize,
    lows: &[u16],
    highs: &[u16],
    frame: probe_frame::FrameLine,
) -> LineEnds
    requires { RisingSlices links lows.now highs.now }
    ensures { let t = of_slices number probes links [] lows.now highs.now [] in
        ((l : List ℕ) → ReadsFrame l (Ok frame) → result.fault ≡ event_line_fault t l)
        × (result.fault ≡ 0 → of_one_probe frame.kind ≡ false → result.link ≡ between t frame.from frame.to) }
{
    if 3 < frame.kind {
        return refused(9);
    }
    if frame.number != table::numbers::wide(number) {
        return refused(23);
    }
    find_ends(probes, links, lows, highs, frame.kind, frame.from, frame.to)
}

// What a line that was not turned down says, by its kind and the link between a frame's ends. A restart stands here as an opening, which 27 never turns down.
pub fn line_event(kind: usize, link: usize) -> probe_rules::Event
    ensures { result ≡ cond (of_one_probe kind) Opening (cond (eqb kind 1) (Offer link) (Refusal link)) }
{
    if is_of_one_probe(kind) {
        return probe_rules::Event::Opening;
    }
    if kind == 1 {
        return probe_rules::Event::Offer(link);
    }
    probe_rules::Event::Refusal(link)
}

// 27.
pub fn unsent_fault(
    event: probe_rules::Event,
    lows: &[u16],
    highs: &[u16],
    rec: &[u8],
    from: usize,
) -> u8
    requires { EventWithin (length lows.now) event × EventWithin (length highs.now) event × EventWithin 65536 event × EventWithin (length rec.now / 8) event }
    ensures { (links : ℕ) → EventWithin links event
        → result ≡ unsent_fault event (marks (of_slices 0 0 links [] lows.now highs.now []) from rec.now) }
{
    match event {
        probe_rules::Event::Opening => 0,
        probe_rules::Event::Offer(i) => {
            if own_mark(Side::Out, rec, lows, highs, from, i) == 1 {
                return 0;
            }
            27
        }
        probe_rules::Event::Refusal(i) => {
            if own_mark(Side::In, rec, lows, highs, from, i) == 1 {
                return 0;
            }
            27
        }
    }
}
