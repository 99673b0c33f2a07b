// The library of a fleet for C and Rust: one line, without a log and with one; finished.
#![tactic(auto)]

ghost use Rattle.std.specs.Prelude.{◌≡◌};
ghost use Rattle.table.specs.Slices.{slices_of};
ghost use Rattle.fleet.specs.Answers.{finishing_reply, whether_finished};
ghost use Rattle.packed_answers.specs.Packed.{packed_value};
ghost use Rattle.fleet_exports.specs.Packed.{HandledPacked, LogsInFleetPacked};

use fleet::Finishing;
use packed_answers::{ANSWER_BASE, logs, packed_answer};
use table::TableSlices;

fn packed_finishing(r: Finishing) -> u64
    ensures { result ≡ packed_value (finishing_reply r) }
{
    match r {
        Finishing::Says(finished) => {
            if finished {
                ANSWER_BASE + 1
            } else {
                ANSWER_BASE
            }
        }
        Finishing::Refused(refusal) => refusal as u64,
    }
}

// `fleet::event`, its answer packed.
#[unsafe(no_mangle)]
pub extern "C" fn planner_fleet_event(
    number: u16,
    probes: u16,
    links: u16,
    needs: &[u16],
    lows: &[u16],
    highs: &[u16],
    costs: &[u16],
    rec: &mut [u8],
    line: &[u8],
    used: usize,
    room: usize,
) -> u64
    ensures { let x = slices_of number probes links needs.now lows.now highs.now costs.now in
        HandledPacked x used room line.now result rec.old rec.new }
{
    let table = TableSlices {
        number,
        probes,
        links,
        needs,
        lows,
        highs,
        costs,
    };
    packed_answer(fleet::event(table, rec, line, used, room))
}

// `fleet::event` with a log of packed entries, the first of them used; its answer packed.
#[unsafe(no_mangle)]
pub extern "C" fn planner_fleet_event_logged(
    number: u16,
    probes: u16,
    links: u16,
    needs: &[u16],
    lows: &[u16],
    highs: &[u16],
    costs: &[u16],
    rec: &mut [u8],
    line: &[u8],
    log: &mut [u64],
    used: usize,
) -> u64
    ensures { let x = slices_of number probes links needs.now lows.now highs.now costs.now in
        LogsInFleetPacked x used line.now result rec.old rec.new log.old log.new }
{
    let table = TableSlices {
        number,
        probes,
        links,
        needs,
        lows,
        highs,
        costs,
    };
    let answer = fleet::event(table, rec, line, used, log.len());
    logs::store(log, used, answer)
}

// `fleet::finished`, its answer packed.
#[unsafe(no_mangle)]
pub extern "C" fn planner_fleet_finished(
    number: u16,
    probes: u16,
    links: u16,
    needs: &[u16],
    lows: &[u16],
    highs: &[u16],
    costs: &[u16],
    rec: &[u8],
) -> u64
    ensures { let x = slices_of number probes links needs.now lows.now highs.now costs.now in
        result ≡ packed_value (whether_finished x rec.now) }
{
    let table = TableSlices {
        number,
        probes,
        links,
        needs,
        lows,
        highs,
        costs,
    };
    packed_finishing(fleet::finished(table, rec))
}
