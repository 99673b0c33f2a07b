// The ends of a link.
ghost use Rattle.std.specs.Prelude.{◌≡◌, [], ◌<◌, ◌≤◌, length};
ghost use Rattle.table.specs.Table.{of_slices, touches, other};
ghost use Rattle.table_links.specs.Own.{next_own};

// Whether the probe is an end of the link.
pub fn touches(lows: &[u16], highs: &[u16], probe: usize, i: usize) -> bool
    requires { (i < length lows.now) × (i < length highs.now) }
    ensures { result ≡ touches (of_slices 0 0 0 [] lows.now highs.now []) probe i }
{
    let low = probe == table::numbers::wide(lows[i]);
    let high = probe == table::numbers::wide(highs[i]);
    low | high
}

// The other end of a link.
pub fn other(lows: &[u16], highs: &[u16], probe: u16, i: usize) -> u16
    requires { (i < length lows.now) × (i < length highs.now) }
    ensures { result ≡ other (of_slices 0 0 0 [] lows.now highs.now []) probe i }
{
    if probe == lows[i] {
        return highs[i];
    }
    lows[i]
}

// The probe's first link from a place on, or `links`.
pub fn next_own(links: usize, lows: &[u16], highs: &[u16], probe: usize, from: usize) -> usize
    requires { (links ≤ length lows.now) × (links ≤ length highs.now) × (from ≤ links) }
    ensures { result ≡ next_own (of_slices 0 0 links [] lows.now highs.now []) probe from }
{
    for i in from..links {
        if touches(lows, highs, probe, i) {
            return i;
        }
    }
    links
}
