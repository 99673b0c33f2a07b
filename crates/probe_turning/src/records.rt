// A record's bytes made of its maps.
ghost use Rattle.std.specs.Prelude.{◌≡◌, ◌*◌, ◌<◌, ◌≤◌, length};
ghost use Rattle.std.proofs.lemmas.List.Edits.{sets};
ghost use Rattle.probe_maps.specs.Maps.{rows, byte_of, bytes_of};

use bit_maps::bits::has;

// The byte of a link in one direction.
fn byte_of(one: &[u64], two: &[u64], i: usize) -> u8
    requires { (i < 64 * length one.now) × (i < 64 * length two.now) }
    ensures { result ≡ byte_of one.now two.now i }
{
    if has(one, i) {
        return 1;
    }
    if has(two, i) {
        return 2;
    }
    0
}

// Stores the bytes of all links.
#[tactic(auto, using(crate::proofs::Laws::no_bytes, crate::proofs::Laws::bytes_next))]
pub fn store(
    links: usize,
    standing: &[u64],
    refused_out: &[u64],
    held: &[u64],
    refused_in: &[u64],
    rec: &mut [u8],
)
    requires { (links ≤ 65535) × (2 * links ≤ length rec.old) × (links ≤ 64 * length standing.now) × (links ≤ 64 * length refused_out.now)
        × (links ≤ 64 * length held.now) × (links ≤ 64 * length refused_in.now) }
    ensures { let m = rows standing.now refused_out.now held.now refused_in.now in
        rec.new ≡ sets rec.old 0 (bytes_of links m) }
{
    for i in 0..links {
        rec[2 * i] = byte_of(standing, refused_out, i);
        rec[2 * i + 1] = byte_of(held, refused_in, i);
    }
}
