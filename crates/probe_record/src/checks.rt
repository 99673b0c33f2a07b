// 20, 21 and 22 of an end's record.
ghost use Rattle.std.specs.Prelude.{◌≡◌, [], ◌+◌, ◌*◌, ◌<◌, ◌≤◌, length};
ghost use Rattle.range.specs.First.{first};
ghost use Rattle.refusals.specs.Refusals.{fault_of};
ghost use Rattle.table.specs.Table.{of_slices};
ghost use Rattle.probe_record.specs.Record.{byte_fault, record_fault};
ghost use Rattle.table.specs.Slices.{as_slices, table_of};

use refusals::Refusal;
use table::TableSlices;

// 21, of one link.
fn check_byte(
    rec: &[u8],
    lows: &[u16],
    highs: &[u16],
    probe: usize,
    i: usize,
) -> Result<(), Refusal>
    requires { (i < length lows.now) × (i < length highs.now) × (2 * i + 1 < length rec.now) }
    ensures { fault_of result ≡ byte_fault (of_slices 0 0 0 [] lows.now highs.now []) probe rec.now i }
{
    if 2 < rec[2 * i] {
        return Err(Refusal::RecordByte);
    }
    if 2 < rec[2 * i + 1] {
        return Err(Refusal::RecordByte);
    }
    if table_links::ends::touches(lows, highs, probe, i) {
        return Ok(());
    }
    if rec[2 * i] != 0 {
        return Err(Refusal::RecordByte);
    }
    if rec[2 * i + 1] != 0 {
        return Err(Refusal::RecordByte);
    }
    Ok(())
}

// 21.
fn check_bytes(
    rec: &[u8],
    links: usize,
    lows: &[u16],
    highs: &[u16],
    probe: usize,
) -> Result<(), Refusal>
    requires { (links ≤ length lows.now) × (links ≤ length highs.now) × (2 * links ≤ length rec.now) }
    ensures { fault_of result ≡ first (byte_fault (of_slices 0 0 0 [] lows.now highs.now []) probe rec.now) links }
{
    for i in 0..links {
        check_byte(rec, lows, highs, probe, i)?;
    }
    Ok(())
}

// 20, 21, 22.
pub fn check_record(rec: &[u8], table: TableSlices<'_>, probe: usize) -> Result<(), Refusal>
    requires { (table.links ≤ 65535) × (table.links ≤ length table.lows.now) × (table.links ≤ length table.highs.now) }
    ensures { fault_of result ≡ record_fault (table_of (as_slices table.entry)) probe rec.now }
{
    let links = table.links as usize;
    if rec.len() != 2 * links {
        return Err(Refusal::RecordLength);
    }
    check_bytes(rec, links, table.lows, table.highs, probe)?;
    let room = table_links::spares::spare(links, table.needs, table.lows, table.highs, probe);
    if room < super::counts::ones(rec, links, 0) {
        return Err(Refusal::OverSpare);
    }
    if room < super::counts::ones(rec, links, 1) {
        return Err(Refusal::OverSpare);
    }
    Ok(())
}
