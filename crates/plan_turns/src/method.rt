// The plan by offers in turn. The working bytes are four a link: two for each direction, at its source and at its target. Beside them are four entries a probe, the marks, and the site in one slice.
ghost use Rattle.std.specs.Prelude.{◌≡◌, [], ℕ, ◌+◌, ◌*◌, ◌-◌, ◌<◌, ◌≤◌, length, replicate, get_or};
ghost use Rattle.range.specs.First.{first};
ghost use Rattle.range.specs.Lists.{stored};
ghost use Rattle.table.specs.Table.{item, of_slices, spare};
ghost use Rattle.table.specs.Legal.{link_fault, table_fault};
ghost use Rattle.plan_theory.specs.Plan.{kept, plan_byte};
ghost use Rattle.plan_turns_search.specs.Record.{WorkingRoom, kept_byte};
ghost use Rattle.table.specs.Slices.{as_slices, table_of};

use table::TableSlices;
use table_links::spares::spare_at;

// Takes the probes' needs off their numbers of links, down to 0.
#[tactic(auto, using(range::proofs::Lists::stored_next, range::proofs::Lists::stored_beyond), unfolding(range::specs::Lists::stored))]
fn take_needs(counts: &mut [u16], probes: usize, needs: &[u16])
    requires { (probes ≤ length counts.old) × (probes ≤ length needs.now) }
    ensures { counts.new ≡ stored (λ v. item counts.old v - item needs.now v) probes counts.old }
{
    for v in 0..probes {
        counts[v] = spare_at(counts, needs, v) as u16;
    }
}

// 0 where each end of the link i holds the other's offer, else 1.
fn kept_byte(rec: &[u8], i: usize) -> u8
    requires { 4 * i + 3 < length rec.now }
    ensures { result ≡ kept_byte rec.now i }
{
    if rec[4 * i + 1] != 1 {
        return 1;
    }
    if rec[4 * i + 3] != 1 {
        return 1;
    }
    0
}

#[tactic(auto, using(range::proofs::Lists::stored_next), unfolding(range::specs::Lists::stored))]
fn write_plan(plan: &mut [u8], rec: &[u8], links: usize)
    requires { (links ≤ length plan.old) × (4 * links ≤ length rec.now) }
    ensures { plan.new ≡ stored (kept_byte rec.now) links plan.old }
{
    for i in 0..links {
        plan[i] = kept_byte(rec, i);
    }
}

fn clear(work: &mut [u8])
    ensures { work.new ≡ replicate (length work.old) 0 }
{
    work.fill(0);
}

// Each probe's spare.
fn find_spares(
    spares: &mut [u16],
    probes: usize,
    links: usize,
    needs: &[u16],
    lows: &[u16],
    highs: &[u16],
)
    requires { (links ≤ length lows.now) × (links ≤ length highs.now) × (links ≤ 65535) × (probes ≤ length spares.old) × (probes ≤ length needs.now)
        × (first (link_fault probes (item lows.now) (item highs.now)) links ≡ 0) }
    ensures { let t = of_slices 0 probes links needs.now lows.now highs.now [] in
        ((v : ℕ) → get_or spares.new v 0 ≡ spare t v) }
{
    table::degrees::clear_counts(spares);
    table::degrees::count_degrees(spares, links, lows, highs);
    take_needs(spares, probes, needs);
}

// The plan by turns: 1 for a kept link, 0 for a rested one. Behind the working bytes are the slices that it works in.
pub fn by_turns(
    plan: &mut [u8],
    work: &mut [u8],
    spares: &mut [u16],
    marks: &mut [u16],
    site: &mut [u16],
    order: &mut [u16],
    half: &mut [u16],
    digits: &mut [u16],
    table: TableSlices<'_>,
)
    requires { (table_fault 256 2048 (table_of (as_slices table)) ≡ 0)
        × (table.probes ≤ length table.needs.now) × (table.links ≤ length table.lows.now) × (table.links ≤ length table.highs.now) × (table.links ≤ length table.costs.now)
        × (table.links ≤ length plan.old) × (4 * table.links ≤ length work.old)
        × WorkingRoom table.probes table.links (length spares.old) (length marks.old) (length site.old) (length order.old) (length half.old) (length digits.old) }
    ensures plan_after { let t = table_of (as_slices table.entry) in
        plan.new ≡ stored (λ i. plan_byte (kept t i)) table.entry.links plan.old }
    ensures work_after { work.new ≡ replicate (length work.old) 0 }
{
    let probes = table.probes as usize;
    let links = table.links as usize;
    clear(work);
    find_spares(spares, probes, links, table.needs, table.lows, table.highs);
    plan_turns_search::chains::link_up(
        marks,
        site,
        order,
        half,
        digits,
        probes,
        links,
        table.lows,
        table.highs,
        table.costs,
        spares,
    );
    super::turns::take_turns(work, marks, site, probes);
    write_plan(plan, work, links);
    clear(work);
}
