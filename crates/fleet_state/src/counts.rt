// Counts by probe: the links whose byte for it has a value.
ghost use Rattle.std.specs.Prelude.{◌≡◌, cond, ℕ, ◌+◌, ◌*◌, ◌<◌, ◌≤◌, eqb, length, set, get_or};
ghost use Rattle.range.specs.Sum.{count};
ghost use Rattle.table.specs.Legal.{Ends};
ghost use Rattle.table.specs.Table.{item};
ghost use Rattle.fleet_state.specs.Within.{end_with};

// One more at a probe whose byte has the value.
fn add_if(counts: &mut [u16], v: usize, byte: u8, value: u8)
    requires { (v < length counts.old) × (get_or counts.old v 0 < 65535) }
    ensures { counts.new ≡ set counts.old v (get_or counts.old v 0 + cond (eqb byte value) 1 0) }
{
    if byte == value {
        counts[v] += 1;
    }
}

// Counts into zeros, at each probe, the links whose byte for it has the value: of a link's four, byte k is its low end's, byte m its high end's.
#[tactic(auto, using(range::proofs::Sums::count_le), unfolding(range::specs::Sum::sum))]
pub fn count_bytes(
    counts: &mut [u16],
    rec: &[u8],
    links: usize,
    lows: &[u16],
    highs: &[u16],
    k: usize,
    m: usize,
    value: u8,
)
    requires { (links ≤ length lows.now) × (links ≤ length highs.now) × (links ≤ 65535) × (8 * links ≤ length rec.now) × (k ≤ 3) × (m ≤ 3)
        × ((i : ℕ) → i < links → Ends (length counts.old) (item lows.now i) (item highs.now i))
        × ((v : ℕ) → get_or counts.old v 0 ≡ 0) }
    ensures { (v : ℕ) → get_or counts.new v 0 ≡ count links (end_with (item lows.now) (item highs.now) rec.now k m value v) }
{
    for i in 0..links {
        let low = table::numbers::wide(lows[i]);
        let high = table::numbers::wide(highs[i]);
        add_if(counts, low, rec[8 * i + k], value);
        add_if(counts, high, rec[8 * i + m], value);
    }
}
