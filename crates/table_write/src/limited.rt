// A table written within limits.
ghost use Rattle.std.specs.Prelude.{◌≤◌};
ghost use Rattle.table.specs.Slices.{as_slices};
ghost use Rattle.table_write.specs.Writing.{WritesTable};

use refusals::Refusal;
use table::TableSlices;
use table::checks::check_slices;
use table::starts::text_end;

// The limits are parameters. `write_table` calls this with 256 and 2,048.
pub fn write_limited(
    pmax: usize,
    lmax: usize,
    table: TableSlices<'_>,
    out: &mut [u8],
) -> Result<usize, Refusal>
    requires { (pmax ≤ 256) × (lmax ≤ 65535) }
    ensures { WritesTable pmax lmax (as_slices table.entry) result out.old out.new }
{
    let n = table.probes as usize;
    let m = table.links as usize;
    let end = text_end(n, m);
    if out.len() < end {
        return Err(Refusal::Slice);
    }
    check_slices(pmax, lmax, table)?;
    super::text::put_table(out, table);
    Ok(end)
}
