// Document 01's M11 with lent wake logs, a program for the gate: the fleet's ten lines, then the three events of probe 1 alone. Each entry is printed as it is read back from its log.
#![tactic(auto)]

ghost use Rattle.std.specs.Prelude.{◌≡◌};
ghost use Rattle.table.specs.Slices.{as_slices};
ghost use Rattle.wake_log.specs.Log.{slot_of};
ghost use Rattle.probe_maps.specs.Maps.{rows};
ghost use Rattle.script_m11.specs.Kept.{KeepsLine, KeepsOpening, KeepsFrame};

use std::io::Write;
use table::TableSlices;
use wake_log::{Entry, Slot, What};

// Site M2.
const NEEDS: [u16; 4] = [0, 1, 1, 0];

const LOWS: [u16; 3] = [0, 1, 2];

const HIGHS: [u16; 3] = [1, 2, 3];

const COSTS: [u16; 3] = [5, 6, 5];

const LINES: [u8; 150] =
    *b"00000100000000\n01000100000001\n00000100010001\n01000100010002\n00000100020002\n01000100020001\n02000100010000\n00000100030003\n01000100030002\n02000100020003\n";

// Lends the log for one line of the fleet.
fn keep_line(
    table: TableSlices<'_>,
    rec: &mut [u8],
    line: &[u8],
    entries: [Entry; 16],
    used: usize,
) -> [Entry; 16]
    ensures { KeepsLine (as_slices table.entry) used line.now rec.old rec.new entries result }
{
    let mut log = entries;
    fleet_log::event_logged(table, rec, line, &mut log, used);
    log
}

// Lends the log for an opening of the end.
fn keep_opening(
    table: TableSlices<'_>,
    probe: u16,
    standing: &mut [u64],
    refused_out: &mut [u64],
    held: &mut [u64],
    refused_in: &mut [u64],
    entries: [Entry; 16],
    used: usize,
) -> [Entry; 16]
    ensures { let before = rows standing.old refused_out.old held.old refused_in.old in
        let after = rows standing.new refused_out.new held.new refused_in.new in
        KeepsOpening (as_slices table.entry) probe before after used entries result }
{
    let mut log = entries;
    probe_log::open_logged(
        table,
        probe,
        standing,
        refused_out,
        held,
        refused_in,
        &mut log,
        used,
    );
    log
}

// Lends the log for a frame that the end hears.
fn keep_frame(
    table: TableSlices<'_>,
    probe: u16,
    standing: &mut [u64],
    refused_out: &mut [u64],
    held: &mut [u64],
    refused_in: &mut [u64],
    frame: &[u8],
    entries: [Entry; 16],
    used: usize,
) -> [Entry; 16]
    ensures { let before = rows standing.old refused_out.old held.old refused_in.old in
        let after = rows standing.new refused_out.new held.new refused_in.new in
        KeepsFrame (as_slices table.entry) probe frame.now before after used entries result }
{
    let mut log = entries;
    probe_log::hear_logged(
        table,
        probe,
        standing,
        refused_out,
        held,
        refused_in,
        frame,
        &mut log,
        used,
    );
    log
}

// Lends the log to be read.
fn read_back(entries: [Entry; 16], used: usize, i: usize) -> Slot
    ensures { result ≡ slot_of entries used i }
{
    wake_log::entry_at(&entries, used, i)
}

// Prints the used entries. A failed write is not told.
fn print<W: Write>(output: &mut W, entries: [Entry; 16], used: usize) {
    for i in 0..16 {
        match read_back(entries, used, i) {
            Slot::Used(e) => {
                let mut out = [0u8; 15];
                script_lines::answers::put_entry(&mut out, 0, e);
                let _ = output.write_all(&out);
            }
            Slot::Unused => {}
        }
    }
}

fn fresh() -> [Entry; 16] {
    [Entry {
        probe: 0,
        what: What::Enough,
    }; 16]
}

// The ten lines of the fleet.
fn fleet<W: Write>(output: &mut W) {
    let mut rec = [0u8; 24];
    let mut entries = fresh();
    for k in 0..10 {
        let after = keep_line(
            TableSlices {
                number: 1,
                probes: 4,
                links: 3,
                needs: &NEEDS,
                lows: &LOWS,
                highs: &HIGHS,
                costs: &COSTS,
            },
            &mut rec,
            &LINES[15 * k..15 * k + 15],
            entries,
            k,
        );
        entries = after;
    }
    print(output, entries, 10);
}

// Probe 1 takes probe 0's offer, opens, and takes probe 2's, displacing probe 0.
fn end<W: Write>(output: &mut W) {
    let mut standing = [0u64; 1];
    let mut out = [0u64; 1];
    let mut held = [0u64; 1];
    let mut into = [0u64; 1];
    let one = keep_frame(
        TableSlices {
            number: 1,
            probes: 4,
            links: 3,
            needs: &NEEDS,
            lows: &LOWS,
            highs: &HIGHS,
            costs: &COSTS,
        },
        1,
        &mut standing,
        &mut out,
        &mut held,
        &mut into,
        &LINES[15..30],
        fresh(),
        0,
    );
    let two = keep_opening(
        TableSlices {
            number: 1,
            probes: 4,
            links: 3,
            needs: &NEEDS,
            lows: &LOWS,
            highs: &HIGHS,
            costs: &COSTS,
        },
        1,
        &mut standing,
        &mut out,
        &mut held,
        &mut into,
        one,
        1,
    );
    let three = keep_frame(
        TableSlices {
            number: 1,
            probes: 4,
            links: 3,
            needs: &NEEDS,
            lows: &LOWS,
            highs: &HIGHS,
            costs: &COSTS,
        },
        1,
        &mut standing,
        &mut out,
        &mut held,
        &mut into,
        &LINES[75..90],
        two,
        2,
    );
    print(output, three, 3);
}

fn main(rt: HostRuntime) {
    let mut output = rt.stdout();
    fleet(&mut output);
    end(&mut output);
}
