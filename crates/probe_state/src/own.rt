// A probe's own links as a map, and its spare.
ghost use Rattle.std.specs.Prelude.{◌≡◌, false, [], ℕ, ◌<◌, ◌≤◌, length};
ghost use Rattle.bit_maps.specs.BitMap.{word_of, map_of};
ghost use Rattle.table.specs.Table.{Table, item, of_slices, touches, spare};
ghost use Rattle.probe_maps.specs.Maps.{is_own};

// Whether one of the links from `start` on and below `end` is the probe's; without a branch, so that several links are compared at a time.
fn has_own(lows: &[u16], highs: &[u16], probe: u16, start: usize, end: usize) -> bool
    requires { (end ≤ length lows.now) × (end ≤ length highs.now) }
    ensures { result ≡ false → (i : ℕ) → start ≤ i → i < end → touches (of_slices 0 0 0 [] lows.now highs.now []) probe i ≡ false }
{
    let mut any = false;
    for i in start..end {
        any = any | ((probe == lows[i]) | (probe == highs[i]));
    }
    any
}

// The own links among the 64 of one word.
#[tactic(auto, unfolding(range::specs::Sum::sum))]
fn own_word(links: usize, lows: &[u16], highs: &[u16], probe: u16, w: usize) -> u64
    requires { (links ≤ length lows.now) × (links ≤ length highs.now) × (w < 32) }
    ensures { result ≡ word_of (is_own (of_slices 0 0 links [] lows.now highs.now []) probe) w }
{
    let start = 64 * w;
    let end = links.min(start + 64);
    if !has_own(lows, highs, probe, start, end) {
        return 0;
    }
    let mut word = 0u64;
    for i in start..end {
        if table_links::ends::touches(lows, highs, probe as usize, i) {
            word += 1 << (i - start);
        }
    }
    word
}

// Fills a map with the probe's own links.
#[tactic(auto, using(range::proofs::Lists::stored_next, crate::proofs::OwnLaws::map_stored), unfolding(range::specs::Lists::stored))]
pub fn own_map(links: usize, lows: &[u16], highs: &[u16], probe: u16, own: &mut [u64])
    requires { (links ≤ length lows.now) × (links ≤ length highs.now) × (length own.old ≡ 32) }
    ensures { own.new ≡ map_of (is_own (of_slices 0 0 links [] lows.now highs.now []) probe) 32 }
{
    for w in 0..own.len() {
        own[w] = own_word(links, lows, highs, probe, w);
    }
}

// The probe's spare, by its own links and its need, for every table that has these.
pub fn spare(own: &[u64], needs: &[u16], probe: usize) -> usize
    requires { length own.now ≤ 65536 }
    ensures { (t : Table) → t.links ≤ 2048 → t.need probe ≡ item needs.now probe → own.now ≡ map_of (is_own t probe) 32 → result ≡ spare t probe }
{
    table_links::spares::spare_of(bit_maps::counts::ones(own), needs, probe)
}
