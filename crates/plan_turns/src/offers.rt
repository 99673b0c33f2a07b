// Offers and displacements, which call each other.
ghost use Rattle.std.specs.Prelude.{true, ◌<◌};
ghost use Rattle.plan_turns_search.specs.Record.{probes_of, source_of, spare_of, mark, OffersReady, MarksAgree, Offered, Displaces};

use plan_turns_search::directions::{
    HELD, HELD_CURSOR, LINKS, OFFER_CURSOR, STANDING, TARGET, entry, of_direction, of_probe,
    opposite, put, set_of_probe, spare_of,
};

// Makes the next offer of u, if one is left; an end that holds its spare displaces its cheapest.
#[cycle(displace_make_offer)]
pub fn make_offer(rec: &mut [u8], marks: &mut [u16], site: &[u16], u: usize) -> bool
    requires { let x = site.now in
        OffersReady x rec.old × MarksAgree x rec.old marks.old × (u < probes_of x) × (mark marks.old u 0 < spare_of x u) }
    ensures { let x = site.now in
        Offered x rec.old rec.new u result × MarksAgree x rec.new marks.new }
{
    let d = plan_turns_search::search::next_offer(rec, marks, site, u);
    set_of_probe(marks, u, OFFER_CURSOR, d);
    if 2 * entry(site, LINKS) <= d {
        return false;
    }
    let v = of_direction(site, d, TARGET);
    let held = of_probe(marks, v, HELD);
    if held < spare_of(site, v) {
        put(rec, d, 1);
        table::degrees::add_one(marks, 4 * u + STANDING);
        table::degrees::add_one(marks, 4 * v + HELD);
        return true;
    }
    displace(rec, marks, site, d);
    true
}

// Takes u's offer d in place of the cheapest that its target v holds, whose maker w then offers again.
#[cycle(displace_make_offer)]
fn displace(rec: &mut [u8], marks: &mut [u16], site: &[u16], d: usize)
    requires { let x = site.now in
        Displaces x rec.old d × MarksAgree x rec.old marks.old }
    ensures { let x = site.now in
        Offered x rec.old rec.new (source_of x d) true × MarksAgree x rec.new marks.new }
{
    let u = of_direction(site, opposite(d), TARGET);
    let v = of_direction(site, d, TARGET);
    let against = plan_turns_search::search::cheapest(rec, marks, site, v);
    let w = of_direction(site, against, TARGET);
    set_of_probe(marks, v, HELD_CURSOR, against);
    put(rec, opposite(against), 2);
    put(rec, d, 1);
    table::degrees::take_one(marks, 4 * w + STANDING);
    table::degrees::add_one(marks, 4 * u + STANDING);
    let _again = make_offer(rec, marks, site, w);
}
