// An end's bytes counted.
ghost use Rattle.std.specs.Prelude.{◌≡◌, ◌+◌, ◌*◌, ◌<◌, ◌≤◌, eqb, length};
ghost use Rattle.range.specs.Sum.{count};
ghost use Rattle.table.specs.Table.{item};

// How many links have the byte 1; `at` is 0 for outbound, 1 for inbound.
pub fn ones(rec: &[u8], links: usize, at: usize) -> usize
    requires { (2 * links ≤ length rec.now) × (at ≤ 1) }
    ensures { (result ≡ count links (λ i. eqb (item rec.now (2 * i + at)) 1)) × (result ≤ links) }
{
    let mut n = 0;
    for i in 0..links {
        if rec[2 * i + at] == 1 {
            n += 1;
        }
    }
    n
}
