// A probe's number of links and its spare.
ghost use Rattle.std.specs.Prelude.{◌≡◌, [], ◌-◌, ◌<◌, ◌≤◌, length};
ghost use Rattle.table.specs.Table.{item, of_slices, degree, spare};

use super::ends::touches;

// The probe's number of links.
fn degree(links: usize, lows: &[u16], highs: &[u16], probe: usize) -> usize
    requires { (links ≤ length lows.now) × (links ≤ length highs.now) }
    ensures { (result ≡ degree (of_slices 0 0 links [] lows.now highs.now []) probe) × (result ≤ links) }
{
    let mut n = 0;
    for i in 0..links {
        if touches(lows, highs, probe, i) {
            n += 1;
        }
    }
    n
}

// A probe's spare, by its number of links; a probe past the needs needs none.
pub fn spare_of(degree: usize, needs: &[u16], probe: usize) -> usize
    ensures { result ≡ degree - item needs.now probe }
{
    if needs.len() <= probe {
        return degree;
    }
    let need = table::numbers::wide(needs[probe]);
    if degree < need {
        return 0;
    }
    degree - need
}

// A probe's spare, by each probe's number of links.
pub fn spare_at(degrees: &[u16], needs: &[u16], v: usize) -> usize
    requires { v < length degrees.now }
    ensures { result ≡ item degrees.now v - item needs.now v }
{
    spare_of(table::numbers::wide(degrees[v]), needs, v)
}

// A probe's spare.
pub fn spare(links: usize, needs: &[u16], lows: &[u16], highs: &[u16], probe: usize) -> usize
    requires { (links ≤ length lows.now) × (links ≤ length highs.now) }
    ensures { result ≡ spare (of_slices 0 0 links needs.now lows.now highs.now []) probe }
{
    spare_of(degree(links, lows, highs, probe), needs, probe)
}
