// S-LSE on a table that is legal, with its links in order. The public planner calls this.
ghost use Rattle.std.specs.Prelude.{◌≡◌, List, ℕ, ◌<◌, ◌≤◌, length, get_or};
ghost use Rattle.range.specs.Lists.{stored};
ghost use Rattle.table.specs.Table.{of_slices};
ghost use Rattle.plan_theory.specs.Plan.{links_at, added, slse, kept, plan_byte};
ghost use Rattle.plan_slse.specs.FromDearest.{InOrder, OrderFits};

use table::TableSlices;

// From cheapest up: what a legal table of these links adds, whatever its probe count and costs, if this is their order and `counts` has an entry for each probe.
fn add_links(plan: &mut [u8], counts: &mut [u16], table: TableSlices<'_>, order: &[u16])
    requires { OrderFits table.links (length counts.old) (length table.needs.now) order.now table.lows.now table.highs.now
        × (table.links ≤ length plan.old)
        × ((j : ℕ) → j < table.links → get_or plan.old j 0 ≡ 0) × ((v : ℕ) → v < length counts.old → get_or counts.old v 0 ≡ 0) }
    ensures { (probes : ℕ) (costs : List ℕ) → let t = of_slices 0 probes table.entry.links table.entry.needs.now table.entry.lows.now table.entry.highs.now costs in
        probes ≤ length counts.old → InOrder t order.now
        → (plan.new ≡ stored (λ j. plan_byte (added t j)) table.entry.links plan.old)
        × ((v : ℕ) → v < probes → get_or counts.new v 0 ≡ links_at t (added t) v) }
{
    let links = table.links as usize;
    for k in (0..links).rev() {
        let i = table::numbers::wide(order[k]);
        super::links::add_link(
            plan,
            counts,
            table.needs,
            i,
            table::numbers::wide(table.lows[i]),
            table::numbers::wide(table.highs[i]),
        );
    }
}

// From dearest down: what S-LSE leaves of the links that such a table adds.
fn remove_links(plan: &mut [u8], counts: &mut [u16], table: TableSlices<'_>, order: &[u16])
    requires { OrderFits table.links (length counts.old) (length table.needs.now) order.now table.lows.now table.highs.now
        × (table.links ≤ length plan.old) }
    ensures { (probes : ℕ) (costs : List ℕ) → let t = of_slices 0 probes table.entry.links table.entry.needs.now table.entry.lows.now table.entry.highs.now costs in
        probes ≤ length counts.old → InOrder t order.now
        → ((j : ℕ) → j < table.entry.links → get_or plan.old j 0 ≡ plan_byte (added t j))
        → ((v : ℕ) → v < probes → get_or counts.old v 0 ≡ links_at t (added t) v)
        → plan.new ≡ stored (λ j. plan_byte (slse t j)) table.entry.links plan.old }
{
    let links = table.links as usize;
    for k in 0..links {
        let i = table::numbers::wide(order[k]);
        super::links::remove_link(
            plan,
            counts,
            table.needs,
            i,
            table::numbers::wide(table.lows[i]),
            table::numbers::wide(table.highs[i]),
        );
    }
}

fn clear(plan: &mut [u8], links: usize)
    requires { links ≤ length plan.old }
    ensures { plan.new ≡ stored (λ j. 0) links plan.old }
{
    plan[..links].fill(0);
}

// The plan of every legal table of these links, whatever its probe count and costs, if this is their order and `counts` has an entry for each probe.
pub fn plan_in_order(plan: &mut [u8], counts: &mut [u16], table: TableSlices<'_>, order: &[u16])
    requires { OrderFits table.links (length counts.old) (length table.needs.now) order.now table.lows.now table.highs.now × (table.links ≤ length plan.old) }
    ensures { (probes : ℕ) (costs : List ℕ) → let t = of_slices 0 probes table.entry.links table.entry.needs.now table.entry.lows.now table.entry.highs.now costs in
        probes ≤ length counts.old → InOrder t order.now → plan.new ≡ stored (λ j. plan_byte (kept t j)) table.entry.links plan.old }
{
    let links = table.links as usize;
    clear(plan, links);
    table::degrees::clear_counts(counts);
    add_links(plan, counts, table, order);
    remove_links(plan, counts, table, order);
}
