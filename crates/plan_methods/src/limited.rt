// Planning within limits. The public planners, of the full limits and of the display, call these.
ghost use Rattle.std.specs.Prelude.{◌≡◌, ℕ, ◌+◌, ◌*◌, ◌<◌, ◌≤◌, length};
ghost use Rattle.range.specs.Sum.{weigh, count};
ghost use Rattle.range.specs.Lists.{stored};
ghost use Rattle.refusals.specs.Refusals.{fault_of};
ghost use Rattle.table.specs.Table.{item, of_slices};
ghost use Rattle.table.specs.Slices.{slices_of, as_slices, table_of};
ghost use Rattle.table.specs.Legal.{table_fault, room_fault};
ghost use Rattle.plan_theory.specs.Plan.{kept, plan_byte, is_kept};
ghost use Rattle.plan_turns_search.specs.Record.{WorkingRoom};
ghost use Rattle.plan_methods.specs.Planning.{plan_fault, turns_fault, SlseReady, Plans, PlansAndClears, PlansBySlse, PlansByTurns};

use super::Totals;
use refusals::Refusal;
use table::TableSlices;
use table::checks::check_parts;

// The checks of a call with a plan of this length, within the limits pmax and lmax.
pub fn check_plan(
    pmax: usize,
    lmax: usize,
    probes: usize,
    links: usize,
    needs: &[u16],
    lows: &[u16],
    highs: &[u16],
    costs: &[u16],
    plan: usize,
) -> Result<(), Refusal>
    ensures { let x = slices_of 0 probes links needs.now lows.now highs.now costs.now in
        fault_of result ≡ plan_fault pmax lmax x plan }
{
    if plan < links {
        return Err(Refusal::Slice);
    }
    check_parts(pmax, lmax, probes, links, needs, lows, highs, costs)
}

// And with working bytes of this length.
pub fn check_turns(
    pmax: usize,
    lmax: usize,
    probes: usize,
    links: usize,
    needs: &[u16],
    lows: &[u16],
    highs: &[u16],
    costs: &[u16],
    plan: usize,
    work: usize,
) -> Result<(), Refusal>
    requires { links < 65536 }
    ensures { let x = slices_of 0 probes links needs.now lows.now highs.now costs.now in
        fault_of result ≡ turns_fault pmax lmax x plan work }
{
    if work < 4 * links {
        return Err(Refusal::Slice);
    }
    check_plan(pmax, lmax, probes, links, needs, lows, highs, costs, plan)
}

// The answer that goes with a plan.
fn answer(plan: &[u8], links: usize, costs: &[u16]) -> Totals
    requires { (links ≤ length plan.now) × (links ≤ length costs.now) × (links ≤ 2048) }
    ensures { let kept_in = is_kept plan.now in
        result ≡ record { kept = count links kept_in; cost = weigh links kept_in (item costs.now) } }
{
    let kept = super::counts::kept_count(plan, links);
    let cost = super::counts::kept_cost(plan, links, costs);
    Totals {
        kept: kept as u16,
        cost,
    }
}

// The plan by S-LSE of every legal table in these slices, whatever its probe count, if `counts` has an entry for each probe. It
// works in `order`, `half`, `digits` and `counts`.
pub fn slse_plan(
    plan: &mut [u8],
    order: &mut [u16],
    half: &mut [u16],
    digits: &mut [u16],
    counts: &mut [u16],
    table: TableSlices<'_>,
)
    requires { SlseReady table.links table.needs.now table.lows.now table.highs.now table.costs.now (length plan.old) (length order.old) (length half.old) (length digits.old) (length counts.old) }
    ensures { (probes : ℕ) → let t = of_slices 0 probes table.entry.links table.entry.needs.now table.entry.lows.now table.entry.highs.now table.entry.costs.now in
        probes ≤ length counts.old → table_fault 256 2048 t ≡ 0 → plan.new ≡ stored (λ i. plan_byte (kept t i)) table.entry.links plan.old }
{
    let links = table.links as usize;
    plan_order::sorting::order_links(order, half, digits, links, table.costs);
    plan_slse::passes::plan_in_order(plan, counts, table, order);
}

// The same plan, and its answer.
pub fn slse_answer(
    plan: &mut [u8],
    order: &mut [u16],
    half: &mut [u16],
    digits: &mut [u16],
    counts: &mut [u16],
    table: TableSlices<'_>,
) -> Totals
    requires { SlseReady table.links table.needs.now table.lows.now table.highs.now table.costs.now (length plan.old) (length order.old) (length half.old) (length digits.old) (length counts.old) }
    ensures { (number probes : ℕ) → let t = of_slices number probes table.entry.links table.entry.needs.now table.entry.lows.now table.entry.highs.now table.entry.costs.now in
        probes ≤ length counts.old → table_fault 256 2048 t ≡ 0 → Plans 0 t (Ok result) plan.old plan.new }
{
    let links = table.links as usize;
    slse_plan(plan, order, half, digits, counts, table);
    answer(plan, links, table.costs)
}

// The plan by offers in turn of a legal table, and its answer. Behind the working bytes are the slices that it works in.
pub fn turns_answer(
    plan: &mut [u8],
    work: &mut [u8],
    spares: &mut [u16],
    marks: &mut [u16],
    site: &mut [u16],
    order: &mut [u16],
    half: &mut [u16],
    digits: &mut [u16],
    table: TableSlices<'_>,
) -> Totals
    requires { (table_fault 256 2048 (table_of (as_slices table)) ≡ 0) × (room_fault table.probes table.links (length table.needs.now) (length table.lows.now) (length table.highs.now) (length table.costs.now) ≡ 0)
        × (table.links ≤ length plan.old) × (4 * table.links ≤ length work.old)
        × WorkingRoom table.probes table.links (length spares.old) (length marks.old) (length site.old) (length order.old) (length half.old) (length digits.old) }
    ensures { (number : ℕ) → let t = of_slices number table.entry.probes table.entry.links table.entry.needs.now table.entry.lows.now table.entry.highs.now table.entry.costs.now in
        PlansAndClears 0 t (Ok result) plan.old plan.new work.old work.new }
{
    let links = table.links as usize;
    plan_turns::method::by_turns(plan, work, spares, marks, site, order, half, digits, table);
    answer(plan, links, table.costs)
}

// The plan by S-LSE within the limits PMAX and LMAX, in slices of their size.
pub fn plan_by_slse<const PMAX: usize, const LMAX: usize>(
    table: TableSlices<'_>,
    plan: &mut [u8],
) -> Result<Totals, Refusal>
    requires { (1 < PMAX) × (PMAX ≤ 256) × (LMAX ≤ 2048) }
    ensures { PlansBySlse PMAX LMAX (as_slices table.entry) result plan.old plan.new }
{
    let probes = table.probes as usize;
    let links = table.links as usize;
    check_plan(
        PMAX,
        LMAX,
        probes,
        links,
        table.needs,
        table.lows,
        table.highs,
        table.costs,
        plan.len(),
    )?;
    let mut order = [0u16; LMAX];
    let mut half = [0u16; LMAX];
    let mut digits = [0u16; PMAX];
    let mut counts = [0u16; PMAX];
    Ok(slse_answer(plan, &mut order, &mut half, &mut digits, &mut counts, table))
}

// The plan by offers in turn within them. The least MARKS and SITE follow from PMAX and LMAX, but no const argument may be computed.
pub fn plan_by_turns<const PMAX: usize, const LMAX: usize, const MARKS: usize, const SITE: usize>(
    table: TableSlices<'_>,
    plan: &mut [u8],
    work: &mut [u8],
) -> Result<Totals, Refusal>
    requires { (1 < PMAX) × (PMAX ≤ 256) × (LMAX ≤ 2048) × (4 * PMAX ≤ MARKS) × (MARKS < 65536) × (8 * LMAX + PMAX + 2 ≤ SITE) × (SITE < 65536) }
    ensures { PlansByTurns PMAX LMAX (as_slices table.entry) result plan.old plan.new work.old work.new }
{
    let probes = table.probes as usize;
    let links = table.links as usize;
    check_turns(
        PMAX,
        LMAX,
        probes,
        links,
        table.needs,
        table.lows,
        table.highs,
        table.costs,
        plan.len(),
        work.len(),
    )?;
    let mut spares = [0u16; PMAX];
    let mut marks = [0u16; MARKS];
    let mut site = [0u16; SITE];
    let mut order = [0u16; LMAX];
    let mut half = [0u16; LMAX];
    let mut digits = [0u16; PMAX];
    Ok(turns_answer(
        plan,
        work,
        &mut spares,
        &mut marks,
        &mut site,
        &mut order,
        &mut half,
        &mut digits,
        table,
    ))
}
