// The events of one end, and the bags of frames that it hears, with its wake log: a lent slice of entries, and the count of its used ones.
#![tactic(auto)]

ghost use Rattle.table.specs.Slices.{as_slices};
ghost use Rattle.probe_maps.specs.Maps.{rows};
ghost use Rattle.probe_bags.specs.Bag.{HearsBag};
ghost use Rattle.probe_log.specs.Logged.{OpensLogged, HearsLogged};

use table::TableSlices;
use wake_log::storing::{append_answer, free};

// The probe opens; the entry goes behind the used ones.
pub fn open_logged(
    table: TableSlices<'_>,
    probe: u16,
    standing: &mut [u64],
    refused_out: &mut [u64],
    held: &mut [u64],
    refused_in: &mut [u64],
    log: &mut [wake_log::Entry],
    used: usize,
) -> wake_log::Answer
    ensures { let before = rows standing.old refused_out.old held.old refused_in.old in
        let after = rows standing.new refused_out.new held.new refused_in.new in
        OpensLogged (as_slices table.entry) probe result before after used log.old log.new }
{
    let answer = probe::open(
        table,
        probe,
        standing,
        refused_out,
        held,
        refused_in,
        free(used, log.len()),
    );
    append_answer(log, used, answer);
    answer
}

// The probe hears a frame; the entry goes behind the used ones.
pub fn hear_logged(
    table: TableSlices<'_>,
    probe: u16,
    standing: &mut [u64],
    refused_out: &mut [u64],
    held: &mut [u64],
    refused_in: &mut [u64],
    frame: &[u8],
    log: &mut [wake_log::Entry],
    used: usize,
) -> wake_log::Answer
    ensures { let before = rows standing.old refused_out.old held.old refused_in.old in
        let after = rows standing.new refused_out.new held.new refused_in.new in
        HearsLogged (as_slices table.entry) probe frame.now result before after used log.old log.new }
{
    let answer = probe::hear(
        table,
        probe,
        standing,
        refused_out,
        held,
        refused_in,
        frame,
        free(used, log.len()),
    );
    append_answer(log, used, answer);
    answer
}

// The probe hears a bag, of any bytes; the entries of its frames go behind the used ones.
pub fn hear_bag(
    table: TableSlices<'_>,
    probe: u16,
    standing: &mut [u64],
    refused_out: &mut [u64],
    held: &mut [u64],
    refused_in: &mut [u64],
    bag: &[u8],
    log: &mut [wake_log::Entry],
    used: usize,
) -> probe_bags::Hearing
    ensures { let before = rows standing.old refused_out.old held.old refused_in.old in
        let after = rows standing.new refused_out.new held.new refused_in.new in
        HearsBag (as_slices table.entry) probe bag.now result before after used log.old log.new }
{
    let t = probe_hearing::tell_bag(
        table,
        probe,
        standing,
        refused_out,
        held,
        refused_in,
        bag,
        used,
        log.len(),
    );
    bag_entries::logs::store_all(log, used, t.entries);
    t.answer
}
