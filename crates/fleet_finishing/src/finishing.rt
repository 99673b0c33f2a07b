// Whether a fleet is finished.
ghost use Rattle.std.specs.Prelude.{◌≡◌, ◌||◌, List, [], ℕ, ◌+◌, ◌*◌, ◌-◌, ◌<◌, ◌≤◌, eqb, length};
ghost use Rattle.range.specs.Sum.{count};
ghost use Rattle.table.specs.Table.{item, of_slices, Degrees};
ghost use Rattle.fleet_theory.specs.Fleet.{finished, may_alter};
ghost use Rattle.fleet_state.specs.Within.{LegalWithoutCosts};
ghost use Rattle.fleet_finishing.specs.Opening.{may_open};

// Whether a frame that may be sent would alter a byte.
fn may_alter(out: u8, into: u8) -> bool
    ensures { result ≡ may_alter out into }
{
    if into == 2 {
        return out != 2;
    }
    if out != 1 {
        return false;
    }
    into == 0
}

// Whether no frame that may be sent would alter a byte.
#[tactic(auto, using(range::proofs::Sums::count_miss), unfolding(range::specs::Sum::sum))]
fn none_alters(rec: &[u8], links: usize) -> bool
    requires { 8 * links ≤ length rec.now }
    ensures { let byte = item rec.now in
        result ≡ eqb (count links (λ i. may_alter (byte (8 * i)) (byte (8 * i + 1)) || may_alter (byte (8 * i + 2)) (byte (8 * i + 3)))) 0 }
{
    for i in 0..links {
        if may_alter(rec[8 * i], rec[8 * i + 1]) {
            return false;
        }
        if may_alter(rec[8 * i + 2], rec[8 * i + 3]) {
            return false;
        }
    }
    true
}

// Whether no opening would open a link, by the probes' counts.
#[tactic(auto, using(range::proofs::Sums::count_miss), unfolding(range::specs::Sum::sum))]
fn none_opens(
    probes: usize,
    needs: &[u16],
    degrees: &[u16],
    standing: &[u16],
    untried: &[u16],
) -> bool
    requires { (probes ≤ length degrees.now) × (probes ≤ length standing.now) × (probes ≤ length untried.now) }
    ensures { result ≡ eqb (count probes (λ v. may_open (item standing.now v) (item degrees.now v - item needs.now v) (item untried.now v))) 0 }
{
    for v in 0..probes {
        let spare = table_links::spares::spare_at(degrees, needs, v);
        if (standing[v] as usize) < spare && untried[v] != 0 {
            return false;
        }
    }
    true
}

// Whether the fleet is finished, by each probe's number of links; the costs do not bear on it.
pub fn is_finished(
    probes: usize,
    links: usize,
    needs: &[u16],
    degrees: &[u16],
    lows: &[u16],
    highs: &[u16],
    rec: &[u8],
) -> bool
    requires { LegalWithoutCosts probes links needs.now lows.now highs.now × (8 * links ≤ length rec.now)
        × (probes ≤ length degrees.now) × Degrees (of_slices 0 probes links needs.now lows.now highs.now []) degrees.now }
    ensures { (number : ℕ) (costs : List ℕ) → result ≡ finished (of_slices number probes links needs.now lows.now highs.now costs) rec.now }
{
    if !none_alters(rec, links) {
        return false;
    }
    let mut standing = [0u16; 256];
    let mut untried = [0u16; 256];
    fleet_state::counts::count_bytes(&mut standing, rec, links, lows, highs, 0, 2, 1);
    fleet_state::counts::count_bytes(&mut untried, rec, links, lows, highs, 0, 2, 0);
    none_opens(probes, needs, degrees, &standing, &untried)
}
