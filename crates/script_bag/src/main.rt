// Document 02, No. 7, with a lent wake log, a program for the gate: probe 1 of M2 hears a bag with the offers of its two neighbours, and, fresh again, one with the same in the other order. The entries are printed as they stand in the log.
#![tactic(auto)]

ghost use Rattle.table.specs.Slices.{as_slices};
ghost use Rattle.probe_maps.specs.Maps.{rows};
ghost use Rattle.script_bag.specs.Kept.{KeepsBag};

use std::io::Write;
use table::TableSlices;
use wake_log::{Entry, What};

// Site M2.
const NEEDS: [u16; 4] = [0, 1, 1, 0];

const LOWS: [u16; 3] = [0, 1, 2];

const HIGHS: [u16; 3] = [1, 2, 3];

const COSTS: [u16; 3] = [5, 6, 5];

// The offers of probes 0 and 2 to probe 1, in both orders.
const OFFERS: [u8; 60] = *b"01000100000001\n01000100020001\n01000100020001\n01000100000001\n";

// Lends the log for a bag that the end hears.
fn keep_bag(
    table: TableSlices<'_>,
    probe: u16,
    standing: &mut [u64],
    refused_out: &mut [u64],
    held: &mut [u64],
    refused_in: &mut [u64],
    bag: &[u8],
    entries: [Entry; 16],
    used: usize,
) -> [Entry; 16]
    ensures { let before = rows standing.old refused_out.old held.old refused_in.old in
        let after = rows standing.new refused_out.new held.new refused_in.new in
        KeepsBag (as_slices table.entry) probe bag.now before after used entries result }
{
    let mut log = entries;
    probe_log::hear_bag(
        table,
        probe,
        standing,
        refused_out,
        held,
        refused_in,
        bag,
        &mut log,
        used,
    );
    log
}

// Probe 1, fresh, hears a bag of two frames. A failed write is not told.
fn hear_two<W: Write>(output: &mut W, bag: &[u8]) {
    let mut standing = [0u64; 1];
    let mut out = [0u64; 1];
    let mut held = [0u64; 1];
    let mut into = [0u64; 1];
    let entries = keep_bag(
        TableSlices {
            number: 1,
            probes: 4,
            links: 3,
            needs: &NEEDS,
            lows: &LOWS,
            highs: &HIGHS,
            costs: &COSTS,
        },
        1,
        &mut standing,
        &mut out,
        &mut held,
        &mut into,
        bag,
        [Entry {
            probe: 0,
            what: What::Enough,
        }; 16],
        0,
    );
    for entry in &entries[..2] {
        let mut line = [0u8; 15];
        script_lines::answers::put_entry(&mut line, 0, *entry);
        let _ = output.write_all(&line);
    }
}

fn main(rt: HostRuntime) {
    let mut output = rt.stdout();
    hear_two(&mut output, &OFFERS[..30]);
    hear_two(&mut output, &OFFERS[30..]);
}
