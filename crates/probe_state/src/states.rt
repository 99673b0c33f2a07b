// The state that an end's calls start from.
ghost use Rattle.std.specs.Prelude.{◌≡◌, length, IfOk};
ghost use Rattle.refusals.specs.Refusals.{fault_of};
ghost use Rattle.bit_maps.specs.BitMap.{map_of};
ghost use Rattle.table.specs.Slices.{table_of, as_slices};
ghost use Rattle.probe_maps.specs.Maps.{rows, is_own, state_fault};

use super::{own, words};
use refusals::Refusal;
use table::TableSlices;
use table::checks::check_slices;

// The table's checks, then 20, 21, 22. Where none is found, `own` has the probe's own links, with room for 2,048.
pub fn check_state(
    table: TableSlices<'_>,
    probe: u16,
    standing: &[u64],
    refused_out: &[u64],
    held: &[u64],
    refused_in: &[u64],
    own: &mut [u64],
) -> Result<(), Refusal>
    requires { length own.old ≡ 32 }
    ensures { let x = as_slices table.entry in
        let m = rows standing.now refused_out.now held.now refused_in.now in
        (fault_of result ≡ state_fault x probe m) × IfOk result (λ u. own.new ≡ map_of (is_own (table_of x) probe) 32) }
{
    let links = table.links as usize;
    check_slices(256, 2048, table)?;
    words::check_lengths(
        links,
        standing.len(),
        refused_out.len(),
        held.len(),
        refused_in.len(),
    )?;
    own::own_map(links, table.lows, table.highs, probe, own);
    words::check_bits(standing, refused_out, held, refused_in, own)?;
    let spare = own::spare(own, table.needs, probe as usize);
    words::check_ones(spare, standing, held)?;
    Ok(())
}
