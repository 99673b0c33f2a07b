// The order of two links.
ghost use Rattle.std.specs.Prelude.{◌≡◌, cond, ◌||◌, ◌<◌, ◌≤◌, leb, length};
ghost use Rattle.table.specs.Table.{item, dearer_by_place};

// Whether the link i is dearer than the link j.
pub fn dearer(costs: &[u16], i: usize, j: usize) -> bool
    requires { (i < length costs.now) × (j < length costs.now) }
    ensures { result ≡ dearer_by_place (item costs.now) i j }
{
    if costs[j] < costs[i] {
        return true;
    }
    if costs[i] < costs[j] {
        return false;
    }
    j < i
}

// Whether the link k goes before the best so far, as the cheapest or as the dearest; `best` is `links` where there is none yet.
pub fn goes_before(cheapest: bool, costs: &[u16], links: usize, k: usize, best: usize) -> bool
    requires { (links ≤ length costs.now) × (k < links) }
    ensures { let cost = item costs.now in
        result ≡ (leb links best || cond cheapest (dearer_by_place cost best k) (dearer_by_place cost k best)) }
{
    if links <= best {
        return true;
    }
    if cheapest {
        return dearer(costs, best, k);
    }
    dearer(costs, k, best)
}
