// A map's ones counted.
ghost use Rattle.std.specs.Prelude.{◌≡◌, ◌≤◌, length};
ghost use Rattle.bit_maps.specs.BitMap.{ones_of};

// How many bits are set.
pub fn ones(map: &[u64]) -> usize
    requires { length map.now ≤ 65536 }
    ensures { result ≡ ones_of map.now }
{
    let mut n = 0;
    for word in map {
        n += u64::count_ones(*word) as usize;
    }
    n
}
