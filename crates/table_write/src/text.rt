// A table's text, written as a whole.
ghost use Rattle.std.specs.Prelude.{◌≡◌, ◌≤◌, length};
ghost use Rattle.std.proofs.lemmas.List.Edits.{sets};
ghost use Rattle.range.specs.Lists.{joined};
ghost use Rattle.table.specs.Table.{item};
ghost use Rattle.table.specs.Text.{need_line, triple_line, need_start, link_start, text_end, text_of};
ghost use Rattle.table.specs.Slices.{as_slices, table_of};

use super::line::{put_closing, put_need, put_triple};
use table::TableSlices;
use table::starts::{link_start, need_start};

fn put_needs(out: &mut [u8], probes: usize, needs: &[u16])
    requires { (need_start probes ≤ length out.old) × (probes ≤ length needs.now) × (probes ≤ 65535) }
    ensures { out.new ≡ sets out.old (need_start 0) (joined (λ v. need_line (item needs.now v)) probes) }
{
    for v in 0..probes {
        put_need(out, need_start(v), needs[v]);
    }
}

fn put_links(
    out: &mut [u8],
    probes: usize,
    links: usize,
    lows: &[u16],
    highs: &[u16],
    costs: &[u16],
)
    requires { (link_start probes links ≤ length out.old)
        × (links ≤ length lows.now) × (links ≤ length highs.now) × (links ≤ length costs.now) × (probes ≤ 65535) × (links ≤ 65535) }
    ensures { out.new ≡ sets out.old (need_start probes)
        (joined (λ i. triple_line (item lows.now i) (item highs.now i) (item costs.now i)) links) }
{
    for i in 0..links {
        put_triple(out, link_start(probes, i), lows[i], highs[i], costs[i]);
    }
}

pub fn put_table(out: &mut [u8], table: TableSlices<'_>)
    requires { (text_end (table_of (as_slices table)) ≤ length out.old)
        × (table.probes ≤ length table.needs.now) × (table.links ≤ length table.lows.now) × (table.links ≤ length table.highs.now) × (table.links ≤ length table.costs.now) }
    ensures { out.new ≡ sets out.old 0 (text_of (table_of (as_slices table.entry))) }
{
    let n = table.probes as usize;
    let m = table.links as usize;
    put_triple(out, 0, table.number, table.probes, table.links);
    put_needs(out, n, table.needs);
    put_links(out, n, m, table.lows, table.highs, table.costs);
    put_closing(out, link_start(n, m));
}
