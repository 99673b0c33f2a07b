// One bit of a map.
ghost use Rattle.std.specs.Prelude.{◌≡◌, ◌*◌, ◌<◌, length};
ghost use Rattle.bit_maps.specs.BitMap.{bit, with_bit, without_bit};

// Whether the bit is set.
pub fn has(map: &[u64], i: usize) -> bool
    requires { i < 64 * length map.now }
    ensures { result ≡ bit map.now i }
{
    let word = map[i / 64];
    (word >> (i % 64)) % 2 == 1
}

// Sets the bit.
fn add(map: &mut [u64], i: usize)
    requires { i < 64 * length map.old }
    ensures { map.new ≡ with_bit map.old i }
{
    let k = i / 64;
    map[k] = map[k] | (1 << (i % 64));
}

// Clears the bit.
fn remove(map: &mut [u64], i: usize)
    requires { i < 64 * length map.old }
    ensures { map.new ≡ without_bit map.old i }
{
    let k = i / 64;
    let word = map[k];
    map[k] = word ^ (word & (1 << (i % 64)));
}

// Puts the bit into one map and out of the other.
pub fn move_bit(into: &mut [u64], from: &mut [u64], i: usize)
    requires { (i < 64 * length into.old) × (i < 64 * length from.old) }
    ensures { (into.new ≡ with_bit into.old i) × (from.new ≡ without_bit from.old i) }
{
    add(into, i);
    remove(from, i);
}
