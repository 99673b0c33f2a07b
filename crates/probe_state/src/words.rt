// 20, 21 and 22 of an end's maps.
ghost use Rattle.std.specs.Prelude.{◌≡◌, cond, ◌&&◌, ◌||◌, ◌*◌, ◌≤◌, ltb, eqb, length};
ghost use Rattle.range.specs.First.{first};
ghost use Rattle.refusals.specs.Refusals.{fault_of};
ghost use Rattle.bit_maps.specs.BitMap.{words_for, ones_of};
ghost use Rattle.probe_maps.specs.Maps.{rows};
ghost use Rattle.probe_state.specs.OwnWords.{word_fault, own_bit_fault};

use refusals::Refusal;

// 21 of the 64 links of one word: a link in both maps of a direction, or in one and not the probe's own.
fn check_word(
    standing: u64,
    refused_out: u64,
    held: u64,
    refused_in: u64,
    own: u64,
) -> Result<(), Refusal>
    ensures { fault_of result ≡ word_fault standing refused_out held refused_in own }
{
    if (standing & refused_out) | (held & refused_in) != 0 {
        return Err(Refusal::RecordByte);
    }
    let used = (standing | refused_out) | (held | refused_in);
    if used | own != own {
        return Err(Refusal::RecordByte);
    }
    Ok(())
}

// 21 of every word.
#[tactic(auto, unfolding(range::specs::First::first))]
pub fn check_bits(
    standing: &[u64],
    refused_out: &[u64],
    held: &[u64],
    refused_in: &[u64],
    own: &[u64],
) -> Result<(), Refusal>
    requires { (length refused_out.now ≡ length standing.now) × (length held.now ≡ length standing.now)
        × (length refused_in.now ≡ length standing.now) × (length standing.now ≤ length own.now) }
    ensures { let m = rows standing.now refused_out.now held.now refused_in.now in
        fault_of result ≡ first (own_bit_fault m own.now) (64 * length standing.now) }
{
    for w in 0..standing.len() {
        check_word(standing[w], refused_out[w], held[w], refused_in[w], own[w])?;
    }
    Ok(())
}

// 20, by the lengths of the maps.
pub fn check_lengths(
    links: usize,
    standing: usize,
    refused_out: usize,
    held: usize,
    refused_in: usize,
) -> Result<(), Refusal>
    requires { links ≤ 65535 }
    ensures { let words = words_for links in
        fault_of result ≡ cond (eqb standing words && (eqb refused_out words && (eqb held words && eqb refused_in words))) 0 20 }
{
    let words = (links + 63) / 64;
    if standing != words {
        return Err(Refusal::RecordLength);
    }
    if refused_out != words {
        return Err(Refusal::RecordLength);
    }
    if held != words {
        return Err(Refusal::RecordLength);
    }
    if refused_in != words {
        return Err(Refusal::RecordLength);
    }
    Ok(())
}

// 22, by counting the ones.
pub fn check_ones(spare: usize, standing: &[u64], held: &[u64]) -> Result<(), Refusal>
    requires { (length standing.now ≤ 65536) × (length held.now ≤ 65536) }
    ensures { fault_of result ≡ cond (ltb spare (ones_of standing.now) || ltb spare (ones_of held.now)) 22 0 }
{
    if spare < bit_maps::counts::ones(standing) {
        return Err(Refusal::OverSpare);
    }
    if spare < bit_maps::counts::ones(held) {
        return Err(Refusal::OverSpare);
    }
    Ok(())
}
