// The library of one end for C and Rust: open and hear, without a log and with one; a bag of frames; ask, rests; its record turned from bytes into maps and back.
#![tactic(auto)]

ghost use Rattle.std.specs.Prelude.{◌≡◌, ℕ, ◌≤◌};
ghost use Rattle.table.specs.Slices.{slices_of};
ghost use Rattle.probe_maps.specs.Maps.{rows};
ghost use Rattle.probe.specs.declared.Kind.TheVariants.{Offer, Refusal};
ghost use Rattle.probe.specs.Answers.{asked_reply, resting_reply, whether_rests};
ghost use Rattle.probe_turning.specs.Turned.{turning_reply};
ghost use Rattle.probe_bags.specs.declared.Hearing.TheVariants.{Heard};
ghost use Rattle.probe_bags.specs.Bag.{hearing_reply};
ghost use Rattle.packed_answers.specs.Packed.{packed_value};
ghost use Rattle.probe_exports.specs.Packed.{OpensPacked, HearsPacked, AsksForPacked, OpensLoggedPacked, HearsLoggedPacked, HearsBagPacked, TurnsToMapsPacked, TurnsToBytesPacked};

use packed_answers::{ANSWER_BASE, logs, packed_answer};
use probe::{Asked, Kind, Resting};
use probe_bags::Hearing;
use table::TableSlices;

fn packed_asked(r: Asked) -> u64
    ensures { result ≡ packed_value (asked_reply r) }
{
    match r {
        Asked::Written => ANSWER_BASE + 1,
        Asked::NotNow => ANSWER_BASE,
        Asked::Refused(refusal) => refusal as u64,
    }
}

fn packed_resting(r: Resting) -> u64
    ensures { result ≡ packed_value (resting_reply r) }
{
    match r {
        Resting::Rests(rests) => {
            if rests {
                return ANSWER_BASE + 1;
            }
            ANSWER_BASE
        }
        Resting::Refused(refusal) => refusal as u64,
    }
}

fn packed_turning(r: Result<(), refusals::Refusal>) -> u64
    ensures { result ≡ packed_value (turning_reply r) }
{
    match r {
        Ok(()) => ANSWER_BASE,
        Err(refusal) => refusal.number() as u64,
    }
}

fn packed_hearing(r: Hearing) -> u64
    requires { (n : ℕ) → r ≡ Heard n → n ≤ 64 }
    ensures { result ≡ packed_value (hearing_reply r) }
{
    match r {
        Hearing::Heard(count) => ANSWER_BASE + count as u64,
        Hearing::Refused(refusal) => refusal as u64,
    }
}

// `probe::open`, its answer packed.
#[unsafe(no_mangle)]
pub extern "C" fn planner_probe_open(
    number: u16,
    probes: u16,
    links: u16,
    needs: &[u16],
    lows: &[u16],
    highs: &[u16],
    costs: &[u16],
    probe: u16,
    standing: &mut [u64],
    refused_out: &mut [u64],
    held: &mut [u64],
    refused_in: &mut [u64],
    free: usize,
) -> u64
    ensures { let x = slices_of number probes links needs.now lows.now highs.now costs.now in
        let before = rows standing.old refused_out.old held.old refused_in.old in
        let after = rows standing.new refused_out.new held.new refused_in.new in
        OpensPacked x probe free result before after }
{
    let table = TableSlices {
        number,
        probes,
        links,
        needs,
        lows,
        highs,
        costs,
    };
    packed_answer(probe::open(table, probe, standing, refused_out, held, refused_in, free))
}

// `probe::hear`, its answer packed.
#[unsafe(no_mangle)]
pub extern "C" fn planner_probe_hear(
    number: u16,
    probes: u16,
    links: u16,
    needs: &[u16],
    lows: &[u16],
    highs: &[u16],
    costs: &[u16],
    probe: u16,
    standing: &mut [u64],
    refused_out: &mut [u64],
    held: &mut [u64],
    refused_in: &mut [u64],
    frame: &[u8],
    free: usize,
) -> u64
    ensures { let x = slices_of number probes links needs.now lows.now highs.now costs.now in
        let before = rows standing.old refused_out.old held.old refused_in.old in
        let after = rows standing.new refused_out.new held.new refused_in.new in
        HearsPacked x probe frame.now free result before after }
{
    let table = TableSlices {
        number,
        probes,
        links,
        needs,
        lows,
        highs,
        costs,
    };
    packed_answer(probe::hear(
        table,
        probe,
        standing,
        refused_out,
        held,
        refused_in,
        frame,
        free,
    ))
}

// `probe::open` with a log of packed entries, the first of them used; its answer packed.
#[unsafe(no_mangle)]
pub extern "C" fn planner_probe_open_logged(
    number: u16,
    probes: u16,
    links: u16,
    needs: &[u16],
    lows: &[u16],
    highs: &[u16],
    costs: &[u16],
    probe: u16,
    standing: &mut [u64],
    refused_out: &mut [u64],
    held: &mut [u64],
    refused_in: &mut [u64],
    log: &mut [u64],
    used: usize,
) -> u64
    ensures { let x = slices_of number probes links needs.now lows.now highs.now costs.now in
        let before = rows standing.old refused_out.old held.old refused_in.old in
        let after = rows standing.new refused_out.new held.new refused_in.new in
        OpensLoggedPacked x probe result before after used log.old log.new }
{
    let table = TableSlices {
        number,
        probes,
        links,
        needs,
        lows,
        highs,
        costs,
    };
    let answer = probe::open(
        table,
        probe,
        standing,
        refused_out,
        held,
        refused_in,
        wake_log::storing::free(used, log.len()),
    );
    logs::store(log, used, answer)
}

// `probe::hear` with a log of packed entries, the first of them used; its answer packed.
#[unsafe(no_mangle)]
pub extern "C" fn planner_probe_hear_logged(
    number: u16,
    probes: u16,
    links: u16,
    needs: &[u16],
    lows: &[u16],
    highs: &[u16],
    costs: &[u16],
    probe: u16,
    standing: &mut [u64],
    refused_out: &mut [u64],
    held: &mut [u64],
    refused_in: &mut [u64],
    frame: &[u8],
    log: &mut [u64],
    used: usize,
) -> u64
    ensures { let x = slices_of number probes links needs.now lows.now highs.now costs.now in
        let before = rows standing.old refused_out.old held.old refused_in.old in
        let after = rows standing.new refused_out.new held.new refused_in.new in
        HearsLoggedPacked x probe frame.now result before after used log.old log.new }
{
    let table = TableSlices {
        number,
        probes,
        links,
        needs,
        lows,
        highs,
        costs,
    };
    let answer = probe::hear(
        table,
        probe,
        standing,
        refused_out,
        held,
        refused_in,
        frame,
        wake_log::storing::free(used, log.len()),
    );
    logs::store(log, used, answer)
}

// A bag heard with a log of packed entries, the first of them used; its answer packed.
#[unsafe(no_mangle)]
pub extern "C" fn planner_probe_hear_bag(
    number: u16,
    probes: u16,
    links: u16,
    needs: &[u16],
    lows: &[u16],
    highs: &[u16],
    costs: &[u16],
    probe: u16,
    standing: &mut [u64],
    refused_out: &mut [u64],
    held: &mut [u64],
    refused_in: &mut [u64],
    bag: &[u8],
    log: &mut [u64],
    used: usize,
) -> u64
    ensures { let x = slices_of number probes links needs.now lows.now highs.now costs.now in
        let before = rows standing.old refused_out.old held.old refused_in.old in
        let after = rows standing.new refused_out.new held.new refused_in.new in
        HearsBagPacked x probe bag.now result before after used log.old log.new }
{
    let table = TableSlices {
        number,
        probes,
        links,
        needs,
        lows,
        highs,
        costs,
    };
    let told = probe_hearing::tell_bag(
        table,
        probe,
        standing,
        refused_out,
        held,
        refused_in,
        bag,
        used,
        log.len(),
    );
    bag_entries::logs::store_all(log, used, told.entries);
    let answer = told.answer;
    packed_hearing(answer)
}

// `probe::ask` for an offer, its answer packed.
#[unsafe(no_mangle)]
pub extern "C" fn planner_probe_ask_offer(
    number: u16,
    probes: u16,
    links: u16,
    needs: &[u16],
    lows: &[u16],
    highs: &[u16],
    costs: &[u16],
    probe: u16,
    standing: &[u64],
    refused_out: &[u64],
    held: &[u64],
    refused_in: &[u64],
    link: u16,
    out: &mut [u8],
) -> u64
    ensures { let x = slices_of number probes links needs.now lows.now highs.now costs.now in
        let m = rows standing.now refused_out.now held.now refused_in.now in
        AsksForPacked x probe Offer link m result out.old out.new }
{
    let table = TableSlices {
        number,
        probes,
        links,
        needs,
        lows,
        highs,
        costs,
    };
    packed_asked(probe::ask(
        table,
        probe,
        standing,
        refused_out,
        held,
        refused_in,
        Kind::Offer,
        link,
        out,
    ))
}

// `probe::ask` for a refusal, its answer packed.
#[unsafe(no_mangle)]
pub extern "C" fn planner_probe_ask_refusal(
    number: u16,
    probes: u16,
    links: u16,
    needs: &[u16],
    lows: &[u16],
    highs: &[u16],
    costs: &[u16],
    probe: u16,
    standing: &[u64],
    refused_out: &[u64],
    held: &[u64],
    refused_in: &[u64],
    link: u16,
    out: &mut [u8],
) -> u64
    ensures { let x = slices_of number probes links needs.now lows.now highs.now costs.now in
        let m = rows standing.now refused_out.now held.now refused_in.now in
        AsksForPacked x probe Refusal link m result out.old out.new }
{
    let table = TableSlices {
        number,
        probes,
        links,
        needs,
        lows,
        highs,
        costs,
    };
    packed_asked(probe::ask(
        table,
        probe,
        standing,
        refused_out,
        held,
        refused_in,
        Kind::Refusal,
        link,
        out,
    ))
}

// `probe::rests`, its answer packed.
#[unsafe(no_mangle)]
pub extern "C" fn planner_probe_rests(
    number: u16,
    probes: u16,
    links: u16,
    needs: &[u16],
    lows: &[u16],
    highs: &[u16],
    costs: &[u16],
    probe: u16,
    standing: &[u64],
    refused_out: &[u64],
    held: &[u64],
    refused_in: &[u64],
    link: u16,
) -> u64
    ensures { let x = slices_of number probes links needs.now lows.now highs.now costs.now in
        let m = rows standing.now refused_out.now held.now refused_in.now in
        result ≡ packed_value (whether_rests x probe m link) }
{
    let table = TableSlices {
        number,
        probes,
        links,
        needs,
        lows,
        highs,
        costs,
    };
    packed_resting(probe::rests(table, probe, standing, refused_out, held, refused_in, link))
}

// `probe_turning::maps_of`, its answer packed.
#[unsafe(no_mangle)]
pub extern "C" fn planner_probe_maps_of(
    number: u16,
    probes: u16,
    links: u16,
    needs: &[u16],
    lows: &[u16],
    highs: &[u16],
    costs: &[u16],
    probe: u16,
    rec: &[u8],
    standing: &mut [u64],
    refused_out: &mut [u64],
    held: &mut [u64],
    refused_in: &mut [u64],
) -> u64
    ensures { let x = slices_of number probes links needs.now lows.now highs.now costs.now in
        let before = rows standing.old refused_out.old held.old refused_in.old in
        let after = rows standing.new refused_out.new held.new refused_in.new in
        TurnsToMapsPacked x probe rec.now result before after }
{
    let table = TableSlices {
        number,
        probes,
        links,
        needs,
        lows,
        highs,
        costs,
    };
    packed_turning(probe_turning::maps_of(
        table,
        probe,
        rec,
        standing,
        refused_out,
        held,
        refused_in,
    ))
}

// `probe_turning::bytes_of`, its answer packed.
#[unsafe(no_mangle)]
pub extern "C" fn planner_probe_bytes_of(
    number: u16,
    probes: u16,
    links: u16,
    needs: &[u16],
    lows: &[u16],
    highs: &[u16],
    costs: &[u16],
    probe: u16,
    standing: &[u64],
    refused_out: &[u64],
    held: &[u64],
    refused_in: &[u64],
    rec: &mut [u8],
) -> u64
    ensures { let x = slices_of number probes links needs.now lows.now highs.now costs.now in
        let m = rows standing.now refused_out.now held.now refused_in.now in
        TurnsToBytesPacked x probe m result rec.old rec.new }
{
    let table = TableSlices {
        number,
        probes,
        links,
        needs,
        lows,
        highs,
        costs,
    };
    packed_turning(probe_turning::bytes_of(
        table,
        probe,
        standing,
        refused_out,
        held,
        refused_in,
        rec,
    ))
}
