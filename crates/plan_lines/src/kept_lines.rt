// A plan's lines: its first line, and those of the kept links.
ghost use Rattle.std.specs.Prelude.{◌≡◌, ◌+◌, ◌≤◌, eqb, length};
ghost use Rattle.std.proofs.lemmas.List.Edits.{sets};
ghost use Rattle.range.specs.Sum.{count};
ghost use Rattle.range.specs.Lists.{joined};
ghost use Rattle.table.specs.Table.{item};
ghost use Rattle.plan_theory.specs.Plan.{is_kept};
ghost use Rattle.plan_lines.specs.Lines.{head_line, kept_start, kept_line};

use table::LINK_BYTES;

// A plan's first line.
pub fn put_head(out: &mut [u8], number: u16, kept: u32, cost: u32)
    requires { kept_start 0 ≤ length out.old }
    ensures { out.new ≡ sets out.old 0 (head_line number kept cost) }
{
    hex_digits::fields::put_number(out, 0, 4, number as u32);
    hex_digits::fields::put_number(out, 4, 4, kept);
    hex_digits::fields::put_number(out, 8, 8, cost);
    out[16] = b'\n';
}

// The line of a link whose byte says that it is kept. Answers where the next line starts.
fn put_link(out: &mut [u8], at: usize, byte: u8, low: u16, high: u16, cost: u16) -> usize
    requires { at + length (kept_line (eqb byte 1) low high cost) ≤ length out.old }
    ensures { let line = kept_line (eqb byte 1) low high cost in
        (out.new ≡ sets out.old at line) × (result ≡ at + length line) }
{
    if byte != 1 {
        return at;
    }
    table_write::line::put_triple(out, at, low, high, cost);
    at + LINK_BYTES
}

// The lines of the kept links, behind a plan's first line.
pub fn put_kept(
    out: &mut [u8],
    plan: &[u8],
    links: usize,
    lows: &[u16],
    highs: &[u16],
    costs: &[u16],
)
    requires { (kept_start (count links (is_kept plan.now)) ≤ length out.old) × (links ≤ length plan.now)
        × (links ≤ length lows.now) × (links ≤ length highs.now) × (links ≤ length costs.now) }
    ensures { out.new ≡ sets out.old (kept_start 0)
        (joined (λ i. kept_line (is_kept plan.now i) (item lows.now i) (item highs.now i) (item costs.now i)) links) }
{
    let mut at = super::starts::kept_start(0);
    for i in 0..links {
        at = put_link(out, at, plan[i], lows[i], highs[i], costs[i]);
    }
}
