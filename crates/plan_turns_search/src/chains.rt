// The site in one slice, with each probe's links in chains, down from its dearest and up from its cheapest.
ghost use Rattle.std.specs.Prelude.{◌≡◌, ℕ, ◌+◌, ◌*◌, ◌/◌, ◌-◌, ◌<◌, ◌≤◌, length, set};
ghost use Rattle.range.specs.Lists.{stored};
ghost use Rattle.table.specs.Table.{item};
ghost use Rattle.plan_turns_search.specs.Chain.{LinkedBy};
ghost use Rattle.plan_turns_search.specs.Record.{of_direction, mark, first_mark, SiteInSlice, WorkingRoom, SiteOfLinks, Started, LinkPut, LinksPut, SparesPut};

use super::directions::{
    COST, HELD_CURSOR, LINKS, OFFER_CURSOR, PROBES, TARGET, entry, of_probe, set_of_direction,
    set_of_probe, store,
};

fn first_mark(j: usize) -> u16
    ensures { result ≡ first_mark j }
{
    if j % 4 < OFFER_CURSOR { 0 } else { 65535 }
}

// No offers, and no links where the searches start.
#[tactic(auto, using(range::proofs::Lists::stored_next), unfolding(range::specs::Lists::stored))]
fn start_marks(marks: &mut [u16])
    ensures { marks.new ≡ stored first_mark (length marks.old) marks.old }
{
    for j in 0..marks.len() {
        marks[j] = first_mark(j);
    }
}

// Puts the two directions of the link i at the heads of its ends' chains. The heads are the k-th of the probes' entries, and what
// follows a direction the k-th of its own.
fn push(marks: &mut [u16], site: &mut [u16], k: usize, i: usize, low: usize, high: usize)
    requires { (i < 2048) × (4 * low + k < length marks.old) × (4 * high + k < length marks.old) × (4 * (2 * i + 1) + k + 2 < length site.old) }
    ensures { (marks.new ≡ set (set marks.old (4 * low + k) (2 * i)) (4 * high + k) (2 * i + 1))
        × (site.new ≡ set (set site.old (4 * (2 * i) + k + 2) (mark marks.old low k)) (4 * (2 * i + 1) + k + 2) (mark marks.old high k)) }
{
    set_of_direction(site, 2 * i, k, of_probe(marks, low, k));
    set_of_direction(site, 2 * i + 1, k, of_probe(marks, high, k));
    set_of_probe(marks, low, k, 2 * i);
    set_of_probe(marks, high, k, 2 * i + 1);
}

// Puts the links into chains, from the last of the order up.
fn chain_links(
    marks: &mut [u16],
    site: &mut [u16],
    k: usize,
    links: usize,
    lows: &[u16],
    highs: &[u16],
    order: &[u16],
)
    requires { (k < 4) × (links ≤ 2048) × (links ≤ length lows.now) × (links ≤ length highs.now) × (links ≤ length order.now) × (8 * links + 2 ≤ length site.old)
        × ((i : ℕ) → i < links → (item lows.now i < item highs.now i) × (item highs.now i < length marks.old / 4))
        × ((j : ℕ) → j < links → item order.now j < links)
        × ((v : ℕ) → v < length marks.old / 4 → 2 * links ≤ mark marks.old v k) }
    ensures { let after = site.new in let marks-after = marks.new in
        LinkedBy (length marks.old / 4) links lows.now highs.now order.now (λ v. mark marks-after v k) (λ d. of_direction after d k)
        × ((v j : ℕ) → j < 4 → (j ≡ k → ⊥) → mark marks-after v j ≡ mark marks.old v j)
        × ((d j : ℕ) → j < 4 → (j ≡ k → ⊥) → of_direction after d j ≡ of_direction site.old d j) }
{
    for n in (0..links).rev() {
        let i = entry(order, n);
        push(marks, site, k, i, entry(lows, i), entry(highs, i));
    }
}

// The first links of a slice in turned order.
#[tactic(auto, using(range::proofs::Lists::stored_next), unfolding(range::specs::Lists::stored))]
fn turn_round(to: &mut [u16], from: &[u16], links: usize)
    requires { (links ≤ length to.old) × (links ≤ length from.now) }
    ensures { to.new ≡ stored (λ k. item from.now (links - 1 - k)) links to.old }
{
    for k in 0..links {
        to[k] = from[links - 1 - k];
    }
}

// Stores the targets and the cost of the two directions of the link i.
fn put_link(site: &mut [u16], i: usize, low: usize, high: usize, cost: usize)
    requires { (8 * i + 9 < length site.old) × (low < 65536) × (high < 65536) × (cost < 65536) }
    ensures { LinkPut i low high cost site.old site.new }
{
    set_of_direction(site, 2 * i, TARGET, high);
    set_of_direction(site, 2 * i + 1, TARGET, low);
    set_of_direction(site, 2 * i, COST, cost);
    set_of_direction(site, 2 * i + 1, COST, cost);
}

fn put_links(site: &mut [u16], links: usize, lows: &[u16], highs: &[u16], costs: &[u16])
    requires { (links ≤ 2048) × (links ≤ length lows.now) × (links ≤ length highs.now) × (links ≤ length costs.now) × (8 * links + 2 ≤ length site.old) }
    ensures { LinksPut links lows.now highs.now costs.now site.old site.new }
{
    for i in 0..links {
        put_link(site, i, entry(lows, i), entry(highs, i), entry(costs, i));
    }
}

// Stores the spares behind the directions.
fn put_spares(site: &mut [u16], probes: usize, links: usize, spares: &[u16])
    requires { (links ≤ 2048) × (probes ≤ 256) × (probes ≤ length spares.now) × (8 * links + probes + 2 ≤ length site.old) }
    ensures { SparesPut probes links spares.now site.old site.new }
{
    for v in 0..probes {
        store(site, 8 * links + v + 2, entry(spares, v));
    }
}

// Stores all but the chains.
fn put_site(
    site: &mut [u16],
    probes: usize,
    links: usize,
    lows: &[u16],
    highs: &[u16],
    costs: &[u16],
    spares: &[u16],
)
    requires { (links ≤ 2048) × (probes ≤ 256) × (links ≤ length lows.now) × (links ≤ length highs.now) × (links ≤ length costs.now) × (probes ≤ length spares.now)
        × (8 * links + probes + 2 ≤ length site.old) }
    ensures { let x = site.new in
        SiteOfLinks probes links lows.now highs.now costs.now spares.now x
        × ((d k : ℕ) → 2 ≤ k → k < 4 → d < 2 * links → of_direction x d k ≡ of_direction site.old d k) }
{
    put_links(site, links, lows, highs, costs);
    put_spares(site, probes, links, spares);
    store(site, PROBES, probes);
    store(site, LINKS, links);
}

// The site, and the probes' marks before the first offer. It works in `order`, `half` and `digits`.
pub fn link_up(
    marks: &mut [u16],
    site: &mut [u16],
    order: &mut [u16],
    half: &mut [u16],
    digits: &mut [u16],
    probes: usize,
    links: usize,
    lows: &[u16],
    highs: &[u16],
    costs: &[u16],
    spares: &[u16],
)
    requires { (links ≤ 2048) × (probes ≤ 256) × (links ≤ length lows.now) × (links ≤ length highs.now) × (links ≤ length costs.now)
        × WorkingRoom probes links (length spares.now) (length marks.old) (length site.old) (length order.old) (length half.old) (length digits.old)
        × ((i : ℕ) → i < links → (item lows.now i < item highs.now i) × (item highs.now i < probes)) }
    ensures { let x = site.new in
        SiteInSlice x × SiteOfLinks probes links lows.now highs.now costs.now spares.now x × Started x marks.new }
{
    start_marks(marks);
    plan_order::sorting::order_links(order, half, digits, links, costs);
    chain_links(marks, site, OFFER_CURSOR, links, lows, highs, order);
    turn_round(half, order, links);
    chain_links(marks, site, HELD_CURSOR, links, lows, highs, half);
    put_site(site, probes, links, lows, highs, costs, spares);
}
