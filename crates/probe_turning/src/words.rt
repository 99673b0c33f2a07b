// A map made of one value of a record's bytes.
ghost use Rattle.std.specs.Prelude.{◌≡◌, ◌+◌, ◌*◌, ◌<◌, ◌≤◌, eqb, length};
ghost use Rattle.range.specs.Lists.{stored};
ghost use Rattle.bit_maps.specs.BitMap.{words_for, word_of};
ghost use Rattle.table.specs.Table.{item};

// The links, among the 64 of one word, whose byte has the value; `at` is 0 for outbound, 1 for inbound.
#[tactic(auto, unfolding(range::specs::Sum::sum))]
fn word_with(rec: &[u8], at: usize, value: u8, w: usize) -> u64
    requires { (at ≤ 1) × (0 < value) × (w ≤ 65535) }
    ensures { result ≡ word_of (λ i. eqb (item rec.now (2 * i + at)) value) w }
{
    let mut word = 0u64;
    for k in 0..64 {
        let i = 2 * (64 * w + k) + at;
        if rec.len() <= i {
            return word;
        }
        if rec[i] == value {
            word += 1 << k;
        }
    }
    word
}

// Fills the words of the links.
#[tactic(auto, using(range::proofs::Lists::stored_next), unfolding(range::specs::Lists::stored))]
pub fn fill(rec: &[u8], at: usize, value: u8, links: usize, map: &mut [u64])
    requires { (at ≤ 1) × (0 < value) × (links ≤ 65535) × (words_for links ≤ length map.old) }
    ensures { map.new ≡ stored (word_of (λ i. eqb (item rec.now (2 * i + at)) value)) (words_for links) map.old }
{
    let words = (links + 63) / 64;
    for w in 0..words {
        map[w] = word_with(rec, at, value, w);
    }
}
