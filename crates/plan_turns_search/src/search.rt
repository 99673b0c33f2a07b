// A probe's next offer, and the cheapest that an end holds.
ghost use Rattle.std.specs.Prelude.{◌*◌, ◌<◌, ◌≤◌};
ghost use Rattle.plan_turns_search.specs.Record.{at_source, probes_of, links_of, spare_of, site_of, OffersReady, MarksAgree};
ghost use Rattle.plan_turns_search.specs.Chain.{opposite};
ghost use Rattle.plan_turns_search.specs.Offers.{Sought, Cheapest, HeldSearch, holds};

use super::directions::{
    HELD, HELD_CURSOR, LINKS, NEXT_DOWN, NEXT_UP, OFFER_CURSOR, TARGET, cheaper, entry,
    of_direction, of_probe, opposite, spare_of,
};

// The dearest untried direction of u whose target would take it, or a number past all. An end that holds its spare takes what is
// dearer than one of its held offers; below its cursor it holds none.
pub fn next_offer(rec: &[u8], marks: &[u16], site: &[u16], u: usize) -> usize
    requires { let x = site.now in
        OffersReady x rec.now × MarksAgree x rec.now marks.now × (u < probes_of x) }
    ensures { let x = site.now in
        (Sought (site_of x) (at_source rec.now) u result) × (result ≤ 2 * links_of x) }
{
    let dirs = 2 * entry(site, LINKS);
    let mut found = dirs;
    let mut e = of_probe(marks, u, OFFER_CURSOR);
    // Stays a while: the step is the chain of the links of u.
    'search: while e < dirs {
        let d = e;
        e = of_direction(site, d, NEXT_DOWN);
        if rec[2 * d] != 0 {
            continue 'search;
        }
        let v = of_direction(site, d, TARGET);
        if of_probe(marks, v, HELD) < spare_of(site, v) {
            found = d;
            break 'search;
        }
        let mut f = of_probe(marks, v, HELD_CURSOR);
        // Stays a while: the step is the chain of the links of v.
        while cheaper(site, f, d) {
            if rec[2 * opposite(f) + 1] == 1 {
                found = d;
                break 'search;
            }
            f = of_direction(site, f, NEXT_UP);
        }
    }
    found
}

// The direction from v that the cheapest offer held by v comes against.
pub fn cheapest(rec: &[u8], marks: &[u16], site: &[u16], v: usize) -> usize
    requires { let x = site.now in
        let held = holds (site_of x) (at_source rec.now) v in
        OffersReady x rec.now × MarksAgree x rec.now marks.now × (v < probes_of x) × (0 < held) × (spare_of x v ≤ held) }
    ensures { let x = site.now in
        let offers = at_source rec.now in
        Cheapest (site_of x) offers v (opposite result) × HeldSearch (site_of x) offers v result }
{
    let mut f = of_probe(marks, v, HELD_CURSOR);
    // Stays a while: the step is the chain of the links of v.
    while rec[2 * opposite(f) + 1] != 1 {
        f = of_direction(site, f, NEXT_UP);
    }
    f
}
