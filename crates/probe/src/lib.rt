// One end of the bargaining, alone: it opens, hears frames, is asked for frames, and rests links. Links go by their place in the table.
#![tactic(auto)]

ghost use Rattle.std.specs.Prelude.{◌≡◌};
ghost use Rattle.table.specs.Slices.{as_slices};
ghost use Rattle.probe_maps.specs.Maps.{rows};
ghost use Rattle.probe.specs.Answers.{Opens, Hears, AsksFor, resting_reply, whether_rests};

use probe_checks::faults;
use table::TableSlices;

pub mod steps;

// A kind of frame to ask for.
#[derive(Clone, Copy)]
pub enum Kind {
    Offer,
    Refusal,
}

// The answer to asking: the line is written, or the frame may not be sent now, or the number of the refusal.
#[derive(Clone, Copy)]
pub enum Asked {
    Written,
    NotNow,
    Refused(u8),
}

// Whether a link rests, or the number of the refusal.
#[derive(Clone, Copy)]
pub enum Resting {
    Rests(bool),
    Refused(u8),
}

// The probe opens. `free` entries of its log are free.
pub fn open(
    table: TableSlices<'_>,
    probe: u16,
    standing: &mut [u64],
    refused_out: &mut [u64],
    held: &mut [u64],
    refused_in: &mut [u64],
    free: usize,
) -> wake_log::Answer
    ensures { let before = rows standing.old refused_out.old held.old refused_in.old in
        let after = rows standing.new refused_out.new held.new refused_in.new in
        Opens (as_slices table.entry) probe free result before after }
{
    let mut own = [0u64; 32];
    let state = probe_state::states::check_state(
        table,
        probe,
        standing,
        refused_out,
        held,
        refused_in,
        &mut own,
    );
    if let Err(refusal) = faults::check_open(state, table.probes as usize, probe as usize, free) {
        return wake_log::Answer::Refused(refusal.number());
    }
    let e = probe_decisions::steps::apply(
        probe_rules::Event::Opening,
        &mut own,
        table,
        probe,
        standing,
        refused_out,
        held,
        refused_in,
    );
    wake_log::Answer::Logged(e)
}

// The probe hears a frame, of any bytes.
pub fn hear(
    table: TableSlices<'_>,
    probe: u16,
    standing: &mut [u64],
    refused_out: &mut [u64],
    held: &mut [u64],
    refused_in: &mut [u64],
    frame: &[u8],
    free: usize,
) -> wake_log::Answer
    ensures { let before = rows standing.old refused_out.old held.old refused_in.old in
        let after = rows standing.new refused_out.new held.new refused_in.new in
        Hears (as_slices table.entry) probe frame.now free result before after }
{
    let mut own = [0u64; 32];
    let state = probe_state::states::check_state(
        table,
        probe,
        standing,
        refused_out,
        held,
        refused_in,
        &mut own,
    );
    let event = match faults::check_hearing(
        state,
        table.number,
        table.links as usize,
        table.lows,
        table.highs,
        probe as usize,
        frame,
        free,
    ) {
        Ok(event) => event,
        Err(refusal) => return wake_log::Answer::Refused(refusal.number()),
    };
    let e = probe_decisions::steps::apply(
        event,
        &mut own,
        table,
        probe,
        standing,
        refused_out,
        held,
        refused_in,
    );
    wake_log::Answer::Logged(e)
}

// The probe is asked for a frame on a link.
pub fn ask(
    table: TableSlices<'_>,
    probe: u16,
    standing: &[u64],
    refused_out: &[u64],
    held: &[u64],
    refused_in: &[u64],
    kind: Kind,
    link: u16,
    out: &mut [u8],
) -> Asked
    ensures { let m = rows standing.now refused_out.now held.now refused_in.now in
        AsksFor (as_slices table.entry) probe kind link m result out.old out.new }
{
    if out.len() < 15 {
        return Asked::Refused(8);
    }
    let mut own = [0u64; 32];
    let state = probe_state::states::check_state(
        table,
        probe,
        standing,
        refused_out,
        held,
        refused_in,
        &mut own,
    );
    if let Err(refusal) = faults::check_link_call(
        state,
        table.links as usize,
        table.lows,
        table.highs,
        probe as usize,
        link as usize,
    ) {
        return Asked::Refused(refusal.number());
    }
    if !steps::is_sendable(kind, standing, refused_in, link as usize) {
        return Asked::NotNow;
    }
    let to = table_links::ends::other(table.lows, table.highs, probe, link as usize);
    probe_frame::frame_line::write_frame(out, steps::kind_of(kind), table.number, probe, to);
    Asked::Written
}

// Whether the probe rests a link.
pub fn rests(
    table: TableSlices<'_>,
    probe: u16,
    standing: &[u64],
    refused_out: &[u64],
    held: &[u64],
    refused_in: &[u64],
    link: u16,
) -> Resting
    ensures { let m = rows standing.now refused_out.now held.now refused_in.now in
        resting_reply result ≡ whether_rests (as_slices table.entry) probe m link }
{
    let mut own = [0u64; 32];
    let state = probe_state::states::check_state(
        table,
        probe,
        standing,
        refused_out,
        held,
        refused_in,
        &mut own,
    );
    if let Err(refusal) = faults::check_link_call(
        state,
        table.links as usize,
        table.lows,
        table.highs,
        probe as usize,
        link as usize,
    ) {
        return Resting::Refused(refusal.number());
    }
    Resting::Rests(steps::in_both(standing, held, link as usize))
}
