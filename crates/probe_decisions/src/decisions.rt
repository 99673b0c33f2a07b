// What befalls an end, by its own maps, for every table whose end it is.
ghost use Rattle.std.specs.Prelude.{◌≡◌, List, ℕ, ◌<◌};
ghost use Rattle.table.specs.Table.{Table};
ghost use Rattle.probe_rules.specs.Rules.{opening, offer};
ghost use Rattle.probe_rules.specs.Within.{EventWithin, IsHeard};
ghost use Rattle.probe_maps.specs.Maps.{rows, bytes_of};
ghost use Rattle.probe_maps.specs.MapRules.{befalls_maps};
ghost use Rattle.probe_decisions.specs.EndOf.{EndRoom, EndOf};

use super::search;
use bit_maps::bits::has;
use bit_maps::counts::ones;
use probe_rules::{Event, Outcome};

// What befalls at an opening. The own links are used up: nothing is promised of them afterwards.
fn decide_opening(
    own: &mut [u64],
    links: usize,
    needs: &[u16],
    costs: &[u16],
    probe: usize,
    standing: &[u64],
    refused_out: &[u64],
) -> Outcome
    requires { EndRoom links costs.now own.old (rows standing.now refused_out.now standing.now refused_out.now) }
    ensures { (t : Table) (held refused_in : List ℕ) → (let m = rows standing.now refused_out.now held refused_in in
        EndOf t probe links needs.now costs.now own.old m → result ≡ opening t probe (bytes_of t.links m)) }
{
    if probe_state::own::spare(own, needs, probe) <= ones(standing) {
        return Outcome::Enough;
    }
    search::remove_tried(own, standing, refused_out);
    let i = search::best_in(false, own, links, costs);
    if links <= i {
        return Outcome::AllTried;
    }
    Outcome::Opened(i)
}

// What befalls at an offer on a link on which none was heard.
fn decide_offer(
    own: &[u64],
    links: usize,
    needs: &[u16],
    costs: &[u16],
    probe: usize,
    held: &[u64],
    i: usize,
) -> Outcome
    requires { EndRoom links costs.now own.now (rows held.now held.now held.now held.now) × (i < links) }
    ensures { (t : Table) (standing refused_out refused_in : List ℕ) → (let m = rows standing refused_out held.now refused_in in
        EndOf t probe links needs.now costs.now own.now m → result ≡ offer t probe (bytes_of t.links m) i) }
{
    if ones(held) < probe_state::own::spare(own, needs, probe) {
        return Outcome::Taken(i);
    }
    let displaced = search::best_in(true, held, links, costs);
    if links <= displaced {
        return Outcome::Refused(i);
    }
    if table_links::order::dearer(costs, i, displaced) {
        return Outcome::TakenDisplacing { link: i, displaced };
    }
    Outcome::Refused(i)
}

// What befalls the probe. An opening uses the own links up: nothing is promised of them after it. A frame heard leaves them.
pub fn decide(
    event: Event,
    own: &mut [u64],
    links: usize,
    needs: &[u16],
    costs: &[u16],
    probe: usize,
    standing: &[u64],
    refused_out: &[u64],
    held: &[u64],
    refused_in: &[u64],
) -> Outcome
    requires { EndRoom links costs.now own.old (rows standing.now refused_out.now held.now refused_in.now) × EventWithin links event }
    ensures { let m = rows standing.now refused_out.now held.now refused_in.now in
        ((t : Table) → EndOf t probe links needs.now costs.now own.old m → result ≡ befalls_maps t probe event m)
        × (IsHeard event → own.new ≡ own.old) }
{
    match event {
        Event::Opening => decide_opening(own, links, needs, costs, probe, standing, refused_out),
        Event::Offer(i) => {
            if has(held, i) {
                return Outcome::NoChange(i);
            }
            if has(refused_in, i) {
                return Outcome::NoChange(i);
            }
            decide_offer(own, links, needs, costs, probe, held, i)
        }
        Event::Refusal(i) => {
            if has(refused_out, i) {
                return Outcome::NoChange(i);
            }
            Outcome::RefusalLearnt(i)
        }
    }
}
