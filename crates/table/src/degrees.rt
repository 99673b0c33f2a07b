// Each probe's number of links, counted.
ghost use Rattle.std.specs.Prelude.{◌≡◌, [], ℕ, ◌+◌, ◌-◌, ◌<◌, ◌≤◌, length, get_or, set, replicate};
ghost use Rattle.table.specs.Table.{item, of_slices, Degrees};
ghost use Rattle.table.specs.Legal.{Ends};

use super::numbers::wide;

// One more at a probe.
pub fn add_one(counts: &mut [u16], v: usize)
    requires { (v < length counts.old) × (get_or counts.old v 0 < 65535) }
    ensures { counts.new ≡ set counts.old v (get_or counts.old v 0 + 1) }
{
    counts[v] += 1;
}

// One less at a probe.
pub fn take_one(counts: &mut [u16], v: usize)
    requires { (v < length counts.old) × (0 < get_or counts.old v 0) }
    ensures { counts.new ≡ set counts.old v (get_or counts.old v 0 - 1) }
{
    counts[v] -= 1;
}

pub fn clear_counts(counts: &mut [u16])
    ensures { counts.new ≡ replicate (length counts.old) 0 }
{
    counts.fill(0);
}

// Counts each probe's links into zeros.
pub fn count_degrees(counts: &mut [u16], links: usize, lows: &[u16], highs: &[u16])
    requires { (links ≤ length lows.now) × (links ≤ length highs.now) × (links ≤ 65535)
        × ((i : ℕ) → i < links → Ends (length counts.old) (item lows.now i) (item highs.now i))
        × ((v : ℕ) → get_or counts.old v 0 ≡ 0) }
    ensures { Degrees (of_slices 0 0 links [] lows.now highs.now []) counts.new }
{
    for i in 0..links {
        let low = wide(lows[i]);
        let high = wide(highs[i]);
        add_one(counts, low);
        add_one(counts, high);
    }
}
