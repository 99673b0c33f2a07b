// The plans of the well-head display: at most 16 probes and 40 links, by the same planner as the full ones, in slices of their size.
#![tactic(auto)]

ghost use Rattle.table.specs.Slices.{as_slices};
ghost use Rattle.plan_methods.specs.Planning.{PlansBySlse, PlansByTurns};
ghost use Rattle.plan_output.specs.Output.{PrintsText};

use output::Output;
use plan_methods::{Totals, limited};
use refusals::Refusal;
use table::TableSlices;
use table_display::{LMAX, PMAX};

// `plan_methods::plan_by_slse` at the display's limits.
pub fn plan_by_slse(table: TableSlices<'_>, plan: &mut [u8]) -> Result<Totals, Refusal>
    ensures { PlansBySlse 16 40 (as_slices table.entry) result plan.old plan.new }
{
    limited::plan_by_slse::<PMAX, LMAX>(table, plan)
}

// `plan_methods::plan_by_turns` at the display's limits.
pub fn plan_by_turns(
    table: TableSlices<'_>,
    plan: &mut [u8],
    work: &mut [u8],
) -> Result<Totals, Refusal>
    ensures { PlansByTurns 16 40 (as_slices table.entry) result plan.old plan.new work.old work.new }
{
    limited::plan_by_turns::<PMAX, LMAX, 64, 338>(table, plan, work)
}

// `plan_output::plan_text` at the display's limits.
pub fn plan_text(text: &[u8], out: &mut [u8]) -> Output
    ensures { PrintsText 16 40 text.now result out.old out.new }
{
    plan_output::text::plan_text::<PMAX, LMAX>(text, out)
}
