// The lines of the short probes. A degree is a probe's number of links.
ghost use Rattle.std.specs.Prelude.{◌≡◌, ◌+◌, ◌-◌, ◌*◌, ◌≤◌, ltb, length};
ghost use Rattle.std.proofs.lemmas.List.Edits.{sets};
ghost use Rattle.range.specs.Sum.{count};
ghost use Rattle.range.specs.Lists.{joined};
ghost use Rattle.table.specs.Table.{item};
ghost use Rattle.plan_lines.specs.Lines.{short_line};

use super::starts::SHORT_BYTES;

// Whether a need is above the links that there are.
fn is_short(degree: u16, need: u16) -> bool
    ensures { result ≡ ltb degree need }
{
    degree < need
}

// The count of short probes.
pub fn short_count(probes: usize, needs: &[u16], degrees: &[u16]) -> u32
    requires { (probes ≤ 256) × (probes ≤ length needs.now) × (probes ≤ length degrees.now) }
    ensures { result ≡ count probes (λ v. ltb (item degrees.now v) (item needs.now v)) }
{
    let mut n: u32 = 0;
    for v in 0..probes {
        if is_short(degrees[v], needs[v]) {
            n += 1;
        }
    }
    n
}

// The line of a probe that is short. Answers where the next line starts.
fn put_short(out: &mut [u8], at: usize, probe: u32, degree: u16, need: u16) -> usize
    requires { at + length (short_line (ltb degree need) probe (need - degree)) ≤ length out.old }
    ensures { let line = short_line (ltb degree need) probe (need - degree) in
        (out.new ≡ sets out.old at line) × (result ≡ at + length line) }
{
    if !is_short(degree, need) {
        return at;
    }
    hex_digits::fields::put_number(out, at, 4, probe);
    hex_digits::fields::put_number(out, at + 4, 4, (need - degree) as u32);
    out[at + 8] = b'\n';
    at + SHORT_BYTES
}

// The lines of the short probes, from an offset on.
pub fn put_shorts(out: &mut [u8], start: usize, probes: usize, needs: &[u16], degrees: &[u16])
    requires { (start + 9 * count probes (λ v. ltb (item degrees.now v) (item needs.now v)) ≤ length out.old)
        × (probes ≤ 256) × (probes ≤ length needs.now) × (probes ≤ length degrees.now) }
    ensures { out.new ≡ sets out.old start
        (joined (λ v. short_line (ltb (item degrees.now v) (item needs.now v)) v (item needs.now v - item degrees.now v)) probes) }
{
    let mut at = start;
    for v in 0..probes {
        at = put_short(out, at, v as u32, degrees[v], needs[v]);
    }
}
