// The library of plans for C and Rust: both methods, and the plan program's output, each for all and for the display.
#![tactic(auto)]

ghost use Rattle.std.specs.Prelude.{◌≡◌, length};
ghost use Rattle.table.specs.Slices.{slices_of};
ghost use Rattle.plan_methods.specs.Planning.{planning_reply};
ghost use Rattle.plan_exports.specs.Packed.{SlsePacked, TurnsPacked, packed_planning};
ghost use Rattle.output.specs.Output.{output_fault};
ghost use Rattle.plan_output.specs.Output.{output_of};
ghost use Rattle.packed_answers.specs.Packed.{PrintsPacked};

use packed_answers::ANSWER_BASE;
use packed_answers::printed::packed_output;
use plan_methods::{Totals, plan_by_slse, plan_by_turns};
use refusals::Refusal;
use table::TableSlices;

fn packed_planning(r: Result<Totals, Refusal>) -> u64
    ensures { result ≡ packed_planning (planning_reply r) }
{
    match r {
        Ok(totals) => ANSWER_BASE + (totals.kept as u64) * 4294967296 + (totals.cost as u64),
        Err(refusal) => refusal.number() as u64,
    }
}

// `plan_methods::plan_by_slse`, its answer packed.
#[unsafe(no_mangle)]
pub extern "C" fn planner_plan_slse(
    number: u16,
    probes: u16,
    links: u16,
    needs: &[u16],
    lows: &[u16],
    highs: &[u16],
    costs: &[u16],
    plan: &mut [u8],
) -> u64
    ensures { let x = slices_of number probes links needs.now lows.now highs.now costs.now in
        SlsePacked 256 2048 x result plan.old plan.new }
{
    let table = TableSlices {
        number,
        probes,
        links,
        needs,
        lows,
        highs,
        costs,
    };
    packed_planning(plan_by_slse(table, plan))
}

// `plan_methods::plan_by_turns`, its answer packed.
#[unsafe(no_mangle)]
pub extern "C" fn planner_plan_turns(
    number: u16,
    probes: u16,
    links: u16,
    needs: &[u16],
    lows: &[u16],
    highs: &[u16],
    costs: &[u16],
    plan: &mut [u8],
    work: &mut [u8],
) -> u64
    ensures { let x = slices_of number probes links needs.now lows.now highs.now costs.now in
        TurnsPacked 256 2048 x result plan.old plan.new work.old work.new }
{
    let table = TableSlices {
        number,
        probes,
        links,
        needs,
        lows,
        highs,
        costs,
    };
    packed_planning(plan_by_turns(table, plan, work))
}

// `plan_output::plan_text`, its answer packed.
#[unsafe(no_mangle)]
pub extern "C" fn planner_plan_text(text: &[u8], out: &mut [u8]) -> u64
    ensures { let printed = output_of 256 2048 text.now in
        PrintsPacked (output_fault (length out.old) printed) printed result out.old out.new }
{
    packed_output(plan_output::plan_text(text, out))
}

// `plan_display::plan_by_slse`, its answer packed.
#[unsafe(no_mangle)]
pub extern "C" fn planner_display_plan_slse(
    number: u16,
    probes: u16,
    links: u16,
    needs: &[u16],
    lows: &[u16],
    highs: &[u16],
    costs: &[u16],
    plan: &mut [u8],
) -> u64
    ensures { let x = slices_of number probes links needs.now lows.now highs.now costs.now in
        SlsePacked 16 40 x result plan.old plan.new }
{
    let table = TableSlices {
        number,
        probes,
        links,
        needs,
        lows,
        highs,
        costs,
    };
    packed_planning(plan_display::plan_by_slse(table, plan))
}

// `plan_display::plan_by_turns`, its answer packed.
#[unsafe(no_mangle)]
pub extern "C" fn planner_display_plan_turns(
    number: u16,
    probes: u16,
    links: u16,
    needs: &[u16],
    lows: &[u16],
    highs: &[u16],
    costs: &[u16],
    plan: &mut [u8],
    work: &mut [u8],
) -> u64
    ensures { let x = slices_of number probes links needs.now lows.now highs.now costs.now in
        TurnsPacked 16 40 x result plan.old plan.new work.old work.new }
{
    let table = TableSlices {
        number,
        probes,
        links,
        needs,
        lows,
        highs,
        costs,
    };
    packed_planning(plan_display::plan_by_turns(table, plan, work))
}

// `plan_display::plan_text`, its answer packed.
#[unsafe(no_mangle)]
pub extern "C" fn planner_display_plan_text(text: &[u8], out: &mut [u8]) -> u64
    ensures { let printed = output_of 16 40 text.now in
        PrintsPacked (output_fault (length out.old) printed) printed result out.old out.new }
{
    packed_output(plan_display::plan_text(text, out))
}
