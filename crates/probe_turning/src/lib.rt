// The record of an end turned from bytes into maps, and back.
#![tactic(auto)]

ghost use Rattle.table.specs.Slices.{as_slices};
ghost use Rattle.probe_maps.specs.Maps.{rows};
ghost use Rattle.probe_turning.specs.Turned.{TurnsToMaps, TurnsToBytes};

use refusals::Refusal;
use table::TableSlices;
use table::checks::check_slices;

mod lengths;
mod records;
mod words;

// Turns a record of bytes, two a link, into maps at the start of the lent rows.
pub fn maps_of(
    table: TableSlices<'_>,
    probe: u16,
    rec: &[u8],
    standing: &mut [u64],
    refused_out: &mut [u64],
    held: &mut [u64],
    refused_in: &mut [u64],
) -> Result<(), Refusal>
    ensures { let before = rows standing.old refused_out.old held.old refused_in.old in
        let after = rows standing.new refused_out.new held.new refused_in.new in
        TurnsToMaps (as_slices table.entry) probe rec.now result before after }
{
    let n = table.links as usize;
    lengths::check_rows(
        n,
        standing.len(),
        refused_out.len(),
        held.len(),
        refused_in.len(),
    )?;
    check_slices(256, 2048, table)?;
    probe_record::checks::check_record(rec, table, probe as usize)?;
    words::fill(rec, 0, 1, n, standing);
    words::fill(rec, 0, 2, n, refused_out);
    words::fill(rec, 1, 1, n, held);
    words::fill(rec, 1, 2, n, refused_in);
    Ok(())
}

// Turns maps into a record of bytes, at the start of the lent one.
pub fn bytes_of(
    table: TableSlices<'_>,
    probe: u16,
    standing: &[u64],
    refused_out: &[u64],
    held: &[u64],
    refused_in: &[u64],
    rec: &mut [u8],
) -> Result<(), Refusal>
    ensures { let m = rows standing.now refused_out.now held.now refused_in.now in
        TurnsToBytes (as_slices table.entry) probe m result rec.old rec.new }
{
    if rec.len() < 2 * (table.links as usize) {
        return Err(Refusal::Slice);
    }
    let mut own = [0u64; 32];
    probe_state::states::check_state(
        table,
        probe,
        standing,
        refused_out,
        held,
        refused_in,
        &mut own,
    )?;
    records::store(
        table.links as usize,
        standing,
        refused_out,
        held,
        refused_in,
        rec,
    );
    Ok(())
}
