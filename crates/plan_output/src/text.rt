// The whole output of a plan, and of a text within limits.
ghost use Rattle.std.specs.Prelude.{◌≡◌, ◌<◌, ◌≤◌, length};
ghost use Rattle.table.specs.Slices.{table_of, slices_fault, as_slices};
ghost use Rattle.output.specs.Output.{output_fault, Prints};
ghost use Rattle.plan_output.specs.Output.{plan_text, PrintsText};

use output::Output;
use table::{CLOSING_BYTES, TableSlices};

// Prints the plan of the legal table in these slices. It works in `plan`, `order`, `half`, `digits` and `degrees`.
pub fn print_plan(
    out: &mut [u8],
    plan: &mut [u8],
    order: &mut [u16],
    half: &mut [u16],
    digits: &mut [u16],
    degrees: &mut [u16],
    table: TableSlices<'_>,
) -> Output
    requires { (slices_fault (as_slices table) ≡ 0) × (table.links ≤ length plan.old) × (table.links ≤ length order.old) × (table.links ≤ length half.old)
        × (1 < length digits.old) × (length digits.old ≤ 256) × (table.probes ≤ length degrees.old) }
    ensures { let printed = plan_text (table_of (as_slices table.entry)) in
        Prints (output_fault (length out.old) printed) printed result out.old out.new }
{
    let probes = table.probes as usize;
    let links = table.links as usize;
    plan_methods::limited::slse_plan(plan, order, half, digits, degrees, table);
    table::degrees::clear_counts(degrees);
    table::degrees::count_degrees(degrees, links, table.lows, table.highs);
    let kept = plan_methods::counts::kept_count(plan, links);
    let short = plan_lines::short_lines::short_count(probes, table.needs, degrees);
    let end = plan_lines::starts::short_start(kept, short);
    if out.len() < end + CLOSING_BYTES {
        return Output::Refused(8);
    }
    let cost = plan_methods::counts::kept_cost(plan, links, table.costs);
    plan_lines::kept_lines::put_head(out, table.number, kept, cost);
    plan_lines::kept_lines::put_kept(out, plan, links, table.lows, table.highs, table.costs);
    let shorts = plan_lines::starts::short_start(kept, 0);
    plan_lines::short_lines::put_shorts(out, shorts, probes, table.needs, degrees);
    table_write::line::put_closing(out, end);
    Output::Length(end + CLOSING_BYTES)
}

// Prints the plan of the table that a text gives within the limits PMAX and LMAX, or the text's refusal.
pub fn plan_text<const PMAX: usize, const LMAX: usize>(text: &[u8], out: &mut [u8]) -> Output
    requires { (1 < PMAX) × (PMAX ≤ 256) × (LMAX ≤ 2048) }
    ensures { PrintsText PMAX LMAX text.now result out.old out.new }
{
    let mut needs = [0u16; PMAX];
    let mut lows = [0u16; LMAX];
    let mut highs = [0u16; LMAX];
    let mut costs = [0u16; LMAX];
    let read = table_read::limited::read_limited(
        text, &mut needs, &mut lows, &mut highs, &mut costs, PMAX, LMAX, false,
    );
    match read {
        Ok(head) => {
            let mut plan = [0u8; LMAX];
            let mut order = [0u16; LMAX];
            let mut half = [0u16; LMAX];
            let mut digits = [0u16; PMAX];
            let mut degrees = [0u16; PMAX];
            print_plan(
                out,
                &mut plan,
                &mut order,
                &mut half,
                &mut digits,
                &mut degrees,
                TableSlices {
                    number: head.number,
                    probes: head.probes,
                    links: head.links,
                    needs: &needs,
                    lows: &lows,
                    highs: &highs,
                    costs: &costs,
                },
            )
        }
        Err(refusal) => output::refusals::print_refusal(out, refusal.number()),
    }
}
