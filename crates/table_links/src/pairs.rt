// The link between two probes, found by halving.
ghost use Rattle.std.specs.Prelude.{◌≡◌, ◌&&◌, not, [], ◌<◌, ◌≤◌, eqb, length};
ghost use Rattle.range.specs.Choice.{lowest};
ghost use Rattle.table.specs.Table.{of_slices, joins, between};
ghost use Rattle.table_links.specs.RisingSlices.{RisingSlices, earlier};

// Whether a and b are the low and the high end.
fn are_ends(low: usize, high: usize, a: usize, b: usize) -> bool
    ensures { result ≡ (eqb a low && eqb b high) }
{
    if a != low {
        return false;
    }
    b == high
}

// Whether the link joins the two probes.
fn joins(lows: &[u16], highs: &[u16], a: usize, b: usize, i: usize) -> bool
    requires { (i < length lows.now) × (i < length highs.now) }
    ensures { result ≡ joins (of_slices 0 0 0 [] lows.now highs.now []) a b i }
{
    let low = table::numbers::wide(lows[i]);
    let high = table::numbers::wide(highs[i]);
    if are_ends(low, high, a, b) {
        return true;
    }
    are_ends(low, high, b, a)
}

// Whether the link's ends come before the given ones.
fn is_earlier(lows: &[u16], highs: &[u16], low: usize, high: usize, i: usize) -> bool
    requires { (i < length lows.now) × (i < length highs.now) }
    ensures { result ≡ earlier lows.now highs.now low high i }
{
    let here = table::numbers::wide(lows[i]);
    if here < low {
        return true;
    }
    if low < here {
        return false;
    }
    table::numbers::wide(highs[i]) < high
}

// The first link that does not come before the given ends, or `links`, by halving.
fn first_from(links: usize, lows: &[u16], highs: &[u16], low: usize, high: usize) -> usize
    requires { RisingSlices links lows.now highs.now }
    ensures { result ≡ lowest (λ i. not (earlier lows.now highs.now low high i)) links }
{
    let mut start = 0;
    let mut end = links;
    // Stays a while: it halves, and `partition_point` would need the two ends of a link in one slice.
    while start < end {
        let middle = start + (end - start) / 2;
        if is_earlier(lows, highs, low, high, middle) {
            start = middle + 1;
        } else {
            end = middle;
        }
    }
    start
}

// The link between a lower probe and a higher one, or `links`.
fn link_of(links: usize, lows: &[u16], highs: &[u16], low: usize, high: usize) -> usize
    requires { RisingSlices links lows.now highs.now × (low ≤ high) }
    ensures { result ≡ between (of_slices 0 0 links [] lows.now highs.now []) low high }
{
    let i = first_from(links, lows, highs, low, high);
    if links <= i {
        return links;
    }
    if joins(lows, highs, low, high, i) {
        return i;
    }
    links
}

// The link between two probes, or `links`.
pub fn between(links: usize, lows: &[u16], highs: &[u16], a: usize, b: usize) -> usize
    requires { RisingSlices links lows.now highs.now }
    ensures { result ≡ between (of_slices 0 0 links [] lows.now highs.now []) a b }
{
    if a <= b {
        return link_of(links, lows, highs, a, b);
    }
    link_of(links, lows, highs, b, a)
}
