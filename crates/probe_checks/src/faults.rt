// The checks of an end's calls, in their order, and what a frame says. `state` is what the checks of the table and of the record found.
ghost use Rattle.std.specs.Prelude.{◌≡◌, cond, ℕ, List, ◌≤◌, eqb, length, IfOk};
ghost use Rattle.refusals.specs.Refusals.{fault_of};
ghost use Rattle.table.specs.Table.{of_slices};
ghost use Rattle.table_links.specs.RisingSlices.{RisingSlices};
ghost use Rattle.probe_frame.specs.Frame.{frame_of};
ghost use Rattle.probe_rules.specs.declared.Event.TheVariants as event;
ghost use Rattle.probe_rules.specs.Frames.{heard_of};
ghost use Rattle.probe_checks.specs.Checks.{HearsFrame, hear_fault, open_fault, link_call_fault};

use probe_rules::Event;
use refusals::Refusal;

// What a frame says, by its kind and the link between its ends.
fn event_of(kind: usize, link: usize) -> Event
    ensures { result ≡ cond (eqb kind 1) (event.Offer link) (event.Refusal link) }
{
    if kind == 1 {
        return Event::Offer(link);
    }
    Event::Refusal(link)
}

// 1, 2, 9, 23, 24 of a frame's line, or what it says. A bag's frames are read by this one by one.
pub fn check_frame(
    number: u16,
    links: usize,
    lows: &[u16],
    highs: &[u16],
    probe: usize,
    frame: &[u8],
) -> Result<Event, Refusal>
    requires { RisingSlices links lows.now highs.now }
    ensures { (probes : ℕ) (needs costs : List ℕ) → HearsFrame (of_slices number probes links needs lows.now highs.now costs) probe frame.now result }
{
    let read = probe_frame::frame_line::read_frame(frame)?;
    if read.kind == 0 {
        return Err(Refusal::Kind);
    }
    if 2 < read.kind {
        return Err(Refusal::Kind);
    }
    if read.number != number as usize {
        return Err(Refusal::OtherTable);
    }
    if read.to != probe {
        return Err(Refusal::NotThere);
    }
    let link = table_links::pairs::between(links, lows, highs, read.from, read.to);
    if links <= link {
        return Err(Refusal::NotThere);
    }
    Ok(event_of(read.kind, link))
}

// The state's fault, then 24 and 26 of an opening.
pub fn check_open(
    state: Result<(), Refusal>,
    probes: usize,
    probe: usize,
    free: usize,
) -> Result<(), Refusal>
    ensures { (number links : ℕ) (needs lows highs costs : List ℕ) → let t = of_slices number probes links needs lows highs costs in
        fault_of result ≡ open_fault (fault_of state) t probe free }
{
    state?;
    if probes <= probe {
        return Err(Refusal::NotThere);
    }
    if free == 0 {
        return Err(Refusal::LogFull);
    }
    Ok(())
}

// What a frame says, or the state's fault, then the frame's, then 26.
pub fn check_hearing(
    state: Result<(), Refusal>,
    number: u16,
    links: usize,
    lows: &[u16],
    highs: &[u16],
    probe: usize,
    frame: &[u8],
    free: usize,
) -> Result<Event, Refusal>
    requires { fault_of state ≡ 0 → RisingSlices links lows.now highs.now }
    ensures { (probes : ℕ) (needs costs : List ℕ) → let t = of_slices number probes links needs lows.now highs.now costs in
        (fault_of result ≡ hear_fault (fault_of state) t probe frame.now free) × IfOk result (λ v. v ≡ heard_of t (frame_of frame.now)) }
{
    state?;
    let event = check_frame(number, links, lows, highs, probe, frame)?;
    if free == 0 {
        return Err(Refusal::LogFull);
    }
    Ok(event)
}

// The state's fault, then 24 of a call about one link.
pub fn check_link_call(
    state: Result<(), Refusal>,
    links: usize,
    lows: &[u16],
    highs: &[u16],
    probe: usize,
    link: usize,
) -> Result<(), Refusal>
    requires { fault_of state ≡ 0 → (links ≤ length lows.now) × (links ≤ length highs.now) }
    ensures { (number probes : ℕ) (needs costs : List ℕ) → let t = of_slices number probes links needs lows.now highs.now costs in
        fault_of result ≡ link_call_fault (fault_of state) t probe link }
{
    state?;
    if links <= link {
        return Err(Refusal::NotThere);
    }
    if !table_links::ends::touches(lows, highs, probe, link) {
        return Err(Refusal::NotThere);
    }
    Ok(())
}
