// A map's ones from the lowest on.
ghost use Rattle.std.specs.Prelude.{◌≡◌, ◌*◌, ◌≤◌, length};
ghost use Rattle.bit_maps.specs.BitMap.{next_bit};

// The first bit from a place on that is set, or the place behind the last.
pub fn next(map: &[u64], from: usize) -> usize
    requires { (length map.now ≤ 65536) × (from ≤ 64 * length map.now) }
    ensures { result ≡ next_bit map.now from }
{
    let k = from / 64;
    if map.len() <= k {
        return from;
    }
    let first = map[k] >> (from % 64);
    if first != 0 {
        return from + u64::trailing_zeros(first) as usize;
    }
    for k in k + 1..map.len() {
        let word = map[k];
        if word != 0 {
            return 64 * k + u64::trailing_zeros(word) as usize;
        }
    }
    64 * map.len()
}
