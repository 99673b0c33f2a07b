// The searches over a map: the untried own links, and the best link of a map.
ghost use Rattle.std.specs.Prelude.{◌≡◌, cond, ◌&&◌, ◌||◌, not, ◌*◌, ◌≤◌, length};
ghost use Rattle.range.specs.Choice.{best};
ghost use Rattle.bit_maps.specs.BitMap.{Words, bit, map_of};
ghost use Rattle.table.specs.Table.{item, dearer_by_place};

use table_links::order::goes_before;

// Removes the tried links from the own ones: those in either of two maps.
pub fn remove_tried(own: &mut [u64], one: &[u64], two: &[u64])
    requires { (length one.now ≤ length own.old) × (length two.now ≡ length one.now) × Words own.old }
    ensures { own.new ≡ map_of (λ i. bit own.old i && not (bit one.now i || bit two.now i)) (length own.old) }
{
    for w in 0..one.len() {
        let word = own[w];
        own[w] = word ^ (word & (one[w] | two[w]));
    }
}

// The cheapest or the dearest of the links in a map, or `links`; its ones are walked through.
pub fn best_in(cheapest: bool, map: &[u64], links: usize, costs: &[u16]) -> usize
    requires { (links ≤ length costs.now) × (links ≤ 64 * length map.now) × (length map.now ≤ 65536) }
    ensures { let cost = item costs.now in
        result ≡ best (λ k b. cond cheapest (dearer_by_place cost b k) (dearer_by_place cost k b)) (bit map.now) links links }
{
    let mut best = links;
    let mut i = bit_maps::walks::next(map, 0);
    // Stays a while: the step goes to the next one of the map.
    while i < links {
        if goes_before(cheapest, costs, links, i, best) {
            best = i;
        }
        i = bit_maps::walks::next(map, i + 1);
    }
    best
}
