// The plan of a table in slices, by two methods.
#![tactic(auto)]

ghost use Rattle.table.specs.Slices.{as_slices};
ghost use Rattle.plan_methods.specs.Planning.{PlansBySlse, PlansByTurns};

use refusals::Refusal;
use table::TableSlices;

pub mod counts;
pub mod limited;

// What planning answers: the count of kept links and their total cost.
#[derive(Clone, Copy)]
pub struct Totals {
    pub kept: u16,
    pub cost: u32,
}

// The plan by S-LSE of a table that is given in slices by its number, probe count and link count.
pub fn plan_by_slse(table: TableSlices<'_>, plan: &mut [u8]) -> Result<Totals, Refusal>
    ensures { PlansBySlse 256 2048 (as_slices table.entry) result plan.old plan.new }
{
    limited::plan_by_slse::<256, 2048>(table, plan)
}

// The plan by offers in turn, with working bytes lent, at least four a link.
pub fn plan_by_turns(
    table: TableSlices<'_>,
    plan: &mut [u8],
    work: &mut [u8],
) -> Result<Totals, Refusal>
    ensures { PlansByTurns 256 2048 (as_slices table.entry) result plan.old plan.new work.old work.new }
{
    limited::plan_by_turns::<256, 2048, 1024, 16642>(table, plan, work)
}
