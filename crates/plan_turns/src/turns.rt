// The turns of the probes, in number order.
ghost use Rattle.std.specs.Prelude.{◌<◌, ◌≤◌};
ghost use Rattle.plan_turns_search.specs.Record.{probes_of, OffersReady, MarksAgree, Turned, Over};

use plan_turns_search::directions::{STANDING, of_probe, spare_of};

// The turn of probe p: it offers until its offers standing equal its spare or none is left to make.
fn turn(rec: &mut [u8], marks: &mut [u16], site: &[u16], p: usize)
    requires { let x = site.now in
        OffersReady x rec.old × MarksAgree x rec.old marks.old × (p < probes_of x) }
    ensures { let x = site.now in
        Turned x rec.old rec.new p × MarksAgree x rec.new marks.new }
{
    // Stays a while: each step is an offer, made in the test.
    while of_probe(marks, p, STANDING) < spare_of(site, p)
        && super::offers::make_offer(rec, marks, site, p)
    {}
}

// The turns of all probes, in number order.
#[tactic(auto, using(plan_turns_search::proofs::Turns::over_next))]
pub fn take_turns(rec: &mut [u8], marks: &mut [u16], site: &[u16], probes: usize)
    requires { let x = site.now in
        OffersReady x rec.old × MarksAgree x rec.old marks.old × (probes ≤ probes_of x) }
    ensures { Over site.now rec.new probes }
{
    for p in 0..probes {
        turn(rec, marks, site, p);
    }
}
