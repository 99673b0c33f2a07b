// The two directions of each link, the probes' marks and the offers' bytes.
ghost use Rattle.std.specs.Prelude.{◌≡◌, ◌+◌, ◌*◌, ◌<◌, ltb, length, set};
ghost use Rattle.table.specs.Table.{item};
ghost use Rattle.plan_turns_search.specs.Chain.{opposite};
ghost use Rattle.plan_turns_search.specs.Record.{links_of, of_direction, spare_of, key_of, mark, put};

// A probe's marks: how many of its offers stand and how many it holds, and the links where the searches for its next offer and for
// its cheapest held offer stand.
pub const STANDING: usize = 0;

pub const HELD: usize = 1;

pub const OFFER_CURSOR: usize = 2;

pub const HELD_CURSOR: usize = 3;

// A direction's entries: its target, its cost, and where the two searches go on, in the places of their cursors.
pub const TARGET: usize = 0;

pub const COST: usize = 1;

pub const NEXT_DOWN: usize = 2;

pub const NEXT_UP: usize = 3;

// The entries of the site's slice before the directions: how many probes and links there are.
pub const PROBES: usize = 0;

pub const LINKS: usize = 1;

pub fn entry(numbers: &[u16], i: usize) -> usize
    requires { i < length numbers.now }
    ensures { result ≡ item numbers.now i }
{
    table::numbers::wide(numbers[i])
}

pub fn store(numbers: &mut [u16], i: usize, x: usize)
    requires { (i < length numbers.old) × (x < 65536) }
    ensures { numbers.new ≡ set numbers.old i x }
{
    numbers[i] = x as u16;
}

pub fn of_probe(marks: &[u16], v: usize, k: usize) -> usize
    requires { 4 * v + k < length marks.now }
    ensures { result ≡ mark marks.now v k }
{
    entry(marks, 4 * v + k)
}

pub fn set_of_probe(marks: &mut [u16], v: usize, k: usize, x: usize)
    requires { (4 * v + k < length marks.old) × (x < 65536) }
    ensures { marks.new ≡ set marks.old (4 * v + k) x }
{
    store(marks, 4 * v + k, x)
}

pub fn of_direction(site: &[u16], d: usize, k: usize) -> usize
    requires { 4 * d + k + 2 < length site.now }
    ensures { result ≡ of_direction site.now d k }
{
    entry(site, 4 * d + k + 2)
}

pub fn set_of_direction(site: &mut [u16], d: usize, k: usize, x: usize)
    requires { (4 * d + k + 2 < length site.old) × (x < 65536) }
    ensures { site.new ≡ set site.old (4 * d + k + 2) x }
{
    store(site, 4 * d + k + 2, x)
}

pub fn spare_of(site: &[u16], v: usize) -> usize
    requires { 8 * links_of site.now + v + 2 < length site.now }
    ensures { result ≡ spare_of site.now v }
{
    entry(site, 8 * entry(site, LINKS) + v + 2)
}

// Whether the direction f is cheaper than d: by cost, at equal cost by the link's place in the table.
pub fn cheaper(site: &[u16], f: usize, d: usize) -> bool
    requires { (4 * f + 3 < length site.now) × (4 * d + 3 < length site.now) × (f < 131072) × (d < 131072) }
    ensures { result ≡ ltb (key_of site.now f) (key_of site.now d) }
{
    let of_f = of_direction(site, f, COST);
    let of_d = of_direction(site, d, COST);
    if of_f == of_d {
        return f / 2 < d / 2;
    }
    of_f < of_d
}

pub fn put(rec: &mut [u8], d: usize, b: u8)
    requires { 2 * d + 1 < length rec.old }
    ensures { rec.new ≡ put rec.old d b }
{
    rec[2 * d] = b;
    rec[2 * d + 1] = b;
}

// The same link the other way.
pub fn opposite(d: usize) -> usize
    requires { d < 131072 }
    ensures { result ≡ opposite d }
{
    if d % 2 == 0 {
        return d + 1;
    }
    d - 1
}
